ghost use Rattle.std.specs.Prelude.{◌≡◌, ◌^◌, min, map, IfOk};
ghost use Rattle.std.specs.List.{list_all};
ghost use Rattle.std.specs.Option.{option_copied};
ghost use Rattle.mqb_base.specs.Same.{same_bytes};
ghost use Rattle.mqb_picture.specs.Words.{parts_by, is_digit, value_of, packet_of, around};
ghost use Rattle.mqb_picture.specs.Words.{behind, in_front_of};

use mqb_base::Memory;
use std::alloc::{AllocError, Global};

/// The parts of a text between these bytes.
pub fn parts(alloc: Global, text: &[u8], by: u8) -> Result<Vec<&[u8]>, AllocError>
    ensures { IfOk result (λ p. map (λ w. w.now) p.items ≡ parts_by by text.now) }
{
    text.split(|byte| *byte == by).collect(alloc)
}

pub fn is_word(word: &[u8], this: &[u8]) -> bool
    ensures { result ≡ same_bytes word.now this.now }
{
    word == this
}

fn are_digits(word: &[u8]) -> bool
    ensures { result ≡ list_all is_digit word.now }
{
    word.iter().all(|byte| byte.is_ascii_digit())
}

const CAP: u64 = 1 << 32;

/// The number that digits spell, or `CAP` where it is greater.
fn capped_value(digits: &[u8]) -> u64
    ensures { result ≡ min (value_of digits.now) (2 ^ 32) }
{
    let mut value = 0;
    for digit in digits {
        value = (value * 10 + u64::from(digit.saturating_sub(b'0'))).min(CAP);
    }
    value
}

/// The number of a packet that a word spells. No picture has a packet of number `CAP`.
#[tactic(auto, unfolding(crate::specs::Words::packet_of))]
pub fn packet_of(word: &[u8]) -> Option<usize>
    ensures { result ≡ packet_of word.now }
{
    if are_digits(word) && !word.is_empty() {
        return Some(capped_value(word) as usize);
    }
    None
}

/// A number, and a text on each side of it.
pub fn around(alloc: Global, front: &[u8], number: usize, back: &[u8]) -> Result<Vec<u8>, Memory>
    ensures { IfOk result (λ text. text.items ≡ around front.now number back.now) }
{
    let mut text = Vec::from_slice(alloc, front)?;
    text.extend_from_slice(number.to_string(alloc)?.as_bytes())?;
    text.extend_from_slice(back)?;
    Ok(text)
}

/// What stands behind the front of a text.
#[tactic(auto, unfolding(crate::specs::Words::behind))]
pub fn behind<'t>(front: &[u8], text: &'t [u8]) -> Option<&'t [u8]>
    ensures { option_copied result ≡ behind front.now text.now }
{
    text.strip_prefix(front)
}

/// What stands in front of the end of a text.
#[tactic(auto, unfolding(crate::specs::Words::in_front_of))]
pub fn in_front_of<'t>(back: &[u8], text: &'t [u8]) -> Option<&'t [u8]>
    ensures { option_copied result ≡ in_front_of back.now text.now }
{
    text.strip_suffix(back)
}
