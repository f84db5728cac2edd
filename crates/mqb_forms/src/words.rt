ghost use Rattle.std.specs.Prelude.{◌≡◌, ◌==◌, ◌<◌, ◌≤◌, ◌^◌, min, length, map, take, IfOk};
ghost use Rattle.std.specs.Prelude.{IfSome, None};
ghost use Rattle.std.specs.List.{slice_split, list_all};
ghost use Rattle.mqb_base.specs.Same.{same_bytes};
ghost use Rattle.mqb_forms.specs.Words.{is_decimal, is_digit, value_of, number_in};

use crate::faults::LineKind;
use std::alloc::{AllocError, Global};

/// The parts of a text between bytes; where there is no such byte, the text itself.
pub fn parts(alloc: Global, text: &[u8], by: u8) -> Result<Vec<&[u8]>, AllocError>
    ensures { IfOk result (λ p. map (λ w. w.now) p.items ≡ slice_split (λ b. b == by) text.now) }
{
    text.split(|byte| *byte == by).collect(alloc)
}

/// How many parts are read in place: as many as a line has that is no commit, and as many
/// as a send has fields.
pub const FEW: usize = 8;

/// The parts of a text between bytes, in place: how many stand at the front of the
/// room, where they fit.
pub fn few_parts<'t>(text: &'t [u8], by: u8, room: &mut [&'t [u8]]) -> Option<usize>
    ensures within { IfSome result (λ count. count ≤ length room.new) }
    ensures parts { IfSome result (λ count. map (λ w. w.now) (take count room.new) ≡
        slice_split (λ b. b == by) text.now) }
    ensures none { result ≡ None → length room.new < length (slice_split (λ b. b == by) text.now) }
{
    let mut count = 0;
    for part in text.split(|byte| *byte == by) {
        if count == room.len() {
            return None;
        }
        room[count] = part;
        count += 1;
    }
    Some(count)
}

pub fn is_word(word: &[u8], this: &[u8]) -> bool
    ensures { result ≡ same_bytes word.now this.now }
{
    word == this
}

fn are_digits(word: &[u8]) -> bool
    ensures { result ≡ list_all is_digit word.now }
{
    word.iter().all(|byte| byte.is_ascii_digit())
}

fn is_decimal(word: &[u8]) -> bool
    ensures { result ≡ is_decimal word.now }
{
    are_digits(word) && (word.len() == 1 || (word.len() > 1 && word[0] != b'0'))
}

const CAP: u64 = 1 << 32;

/// The number that digits spell, or `CAP` where it is greater.
fn capped_value(digits: &[u8]) -> u64
    ensures { result ≡ min (value_of digits.now) (2 ^ 32) }
{
    let mut value = 0;
    for digit in digits {
        value = (value * 10 + u64::from(digit.saturating_sub(b'0'))).min(CAP);
    }
    value
}

/// The number from `least` to `greatest` that a word spells in decimal, without leading zeros.
#[tactic(auto, unfolding(crate::specs::Words::number_in))]
pub fn number_in(least: u32, greatest: u32, word: &[u8]) -> Result<u32, LineKind>
    ensures number { result ≡ number_in least greatest word.now }
    ensures least { IfOk result (λ n. least ≤ n) }
    ensures greatest { IfOk result (λ n. n ≤ greatest) }
{
    if !is_decimal(word) {
        return Err(LineKind::Value);
    }
    let value = capped_value(word);
    if value < u64::from(least) || value > u64::from(greatest) {
        return Err(LineKind::Value);
    }
    Ok(value as u32)
}
