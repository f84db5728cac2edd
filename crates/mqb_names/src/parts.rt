ghost use Rattle.std.specs.Prelude.{◌≡◌, ◌≤◌, ◌<◌, ◌==◌, not, position, true, IsSome, length};
ghost use Rattle.std.specs.Prelude.{option_map, if◌then◌else◌};
ghost use Rattle.std.specs.List.{before_first};
ghost use Rattle.mqb_base.specs.Names.{is_name_byte};
ghost use Rattle.uuid.specs.Text.{is_hex_digit};
ghost use Rattle.mqb_fields.specs.Reading.{rest_of, moved};
ghost use Rattle.mqb_names.specs.Parts.{begins, guid_of, same_word, is_stop, is_name, hex_digits};
ghost use Rattle.mqb_names.specs.Parts.{hex_value, hex_number, octet_of};
ghost use Rattle.mqb_names.specs.Parts.{octet_and_rest, address_of};

use mqb_base::{MAX_NAME, is_name_byte};
use mqb_fields::Cursor;
use uuid::Uuid;

/// Whether two texts are the same whatever their case.
#[tactic(auto, unfolding(crate::specs::Parts::same_word))]
pub(crate) fn same_word(text: &[u8], word: &[u8]) -> bool
    ensures { result ≡ same_word text.now word.now }
{
    text.eq_ignore_ascii_case(word)
}

#[tactic(auto, unfolding(crate::specs::Parts::same_word))]
pub(crate) fn begins(text: &[u8], word: &[u8]) -> bool
    ensures begins { result ≡ begins text.now word.now }
    ensures long { result ≡ true → length word.now ≤ length text.now }
{
    text.len() >= word.len() && same_word(&text[..word.len()], word)
}

/// Moves on over bytes that are there.
pub(crate) fn advance(cursor: &mut Cursor<'_>, count: usize)
    requires { count ≤ length (rest_of cursor.old) }
    ensures { cursor.new ≡ moved count cursor.old }
{
    let _ = cursor.skip(count);
}

/// Moves behind a word where it stands next, whatever its case.
pub(crate) fn skip_word(cursor: &mut Cursor<'_>, word: &[u8]) -> bool
    ensures found { result ≡ begins (rest_of cursor.old) word.now }
    ensures moved { cursor.new ≡ (if result then moved (length word.now) cursor.old
        else cursor.old) }
{
    if !begins(cursor.rest(), word) {
        return false;
    }
    advance(cursor, word.len());
    true
}

/// The GUID that the first 36 characters spell.
pub(crate) fn guid_of(text: &[u8]) -> Option<[u8; 16]>
    ensures guid { result ≡ guid_of text.now }
    ensures long { IsSome result → 36 ≤ length text.now }
{
    if text.len() < 36 {
        return None;
    }
    match Uuid::try_parse_ascii(&text[..36]) {
        Ok(uuid) => Some(uuid.into_bytes()),
        Err(_) => None,
    }
}

fn is_stop(byte: u8) -> bool
    ensures { result ≡ is_stop byte }
{
    matches!(byte, b'\\' | b';')
}

fn first_stop(text: &[u8]) -> Option<usize>
    ensures { result ≡ position is_stop text.now }
{
    text.iter().position(|byte| is_stop(*byte))
}

/// The bytes before the first backslash or semicolon.
#[tactic(auto, using(crate::proofs::Ends::before_end))]
pub(crate) fn before_stop(text: &[u8]) -> &[u8]
    ensures { result.now ≡ before_first is_stop text.now }
{
    let end = first_stop(text).unwrap_or(text.len());
    &text[..end]
}

fn is_hex_digit(byte: u8) -> bool
    ensures { result ≡ is_hex_digit byte }
{
    matches!(byte, b'0'..=b'9' | b'a'..=b'f' | b'A'..=b'F')
}

fn first_other(text: &[u8]) -> Option<usize>
    ensures { result ≡ position (λ b. not (is_hex_digit b)) text.now }
{
    text.iter().position(|byte| !is_hex_digit(*byte))
}

/// The hexadecimal digits at the front.
#[tactic(auto, using(crate::proofs::Ends::before_end))]
pub(crate) fn hex_digits(text: &[u8]) -> &[u8]
    ensures { result.now ≡ hex_digits text.now }
{
    let end = first_other(text).unwrap_or(text.len());
    &text[..end]
}

fn hex_value(byte: u8) -> u8
    ensures value { result ≡ hex_value byte }
    ensures small { result < 16 }
{
    match byte {
        b'0'..=b'9' => byte - b'0',
        b'a'..=b'f' => byte - b'a' + 10,
        b'A'..=b'F' => byte - b'A' + 10,
        _ => 0,
    }
}

pub(crate) fn hex_number(digits: &[u8]) -> u32
    requires { length digits.now ≤ 8 }
    ensures { result ≡ hex_number digits.now }
{
    let mut number = 0;
    for digit in digits {
        number = number * 16 + u32::from(hex_value(*digit));
    }
    number
}

fn octet(text: &[u8]) -> Option<u8>
    ensures { result ≡ octet_of text.now }
{
    match text {
        [a @ b'0'..=b'9'] => Some(*a - b'0'),
        [a @ b'1'..=b'9', b @ b'0'..=b'9'] => Some((*a - b'0') * 10 + (*b - b'0')),
        [a @ b'1'..=b'9', b @ b'0'..=b'9', c @ b'0'..=b'9'] => {
            let number = u16::from(*a - b'0') * 100
                + u16::from(*b - b'0') * 10
                + u16::from(*c - b'0');
            u8::try_from(number).ok()
        }
        _ => None,
    }
}

fn first_dot(text: &[u8]) -> Option<usize>
    ensures { result ≡ position (λ b. b == 0x2E) text.now }
{
    text.iter().position(|byte| *byte == b'.')
}

/// The number before the first dot, and what stands behind the dot.
fn octet_and_rest(text: &[u8]) -> Option<(u8, &[u8])>
    ensures { option_map (λ read. (read.0, read.1.now)) result ≡ octet_and_rest text.now }
{
    let end = first_dot(text)?;
    let number = octet(&text[..end])?;
    Some((number, &text[end + 1..]))
}

/// An address, as four numbers from 0 to 255 with dots between them.
pub(crate) fn address(text: &[u8]) -> Option<[u8; 4]>
    ensures { result ≡ address_of text.now }
{
    let (a, rest) = octet_and_rest(text)?;
    let (b, rest) = octet_and_rest(rest)?;
    let (c, rest) = octet_and_rest(rest)?;
    let d = octet(rest)?;
    Some([a, b, c, d])
}

fn first_outside(bytes: &[u8]) -> Option<usize>
    ensures { result ≡ position (λ b. not (is_name_byte b)) bytes.now }
{
    bytes.iter().position(|byte| !is_name_byte(*byte))
}

/// Whether bytes make a name.
pub(crate) fn is_name(bytes: &[u8]) -> bool
    ensures { result ≡ is_name bytes.now }
{
    if bytes.is_empty() || bytes.len() > MAX_NAME {
        return false;
    }
    first_outside(bytes).is_none()
}
