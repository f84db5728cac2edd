ghost use Rattle.std.specs.Prelude.{◌≡◌, ◌<◌, ◌≤◌, IfOk};
ghost use Rattle.mqb_forms.specs.Sends.{flag_bit, flags_of};

use crate::faults::LineKind;
use crate::words::is_word;

fn flag_bit(letter: u8) -> Result<u8, LineKind>
    ensures bit { result ≡ flag_bit letter }
    ensures small { IfOk result (λ bit. bit ≤ 32) }
{
    match letter {
        b'd' => Ok(1),
        b'j' => Ok(2),
        b'p' => Ok(4),
        b'r' => Ok(8),
        b'n' => Ok(16),
        b'm' => Ok(32),
        _ => Err(LineKind::Value),
    }
}

/// The flags that a word spells: the bits of a journal, and four times those of an acknowledgement.
pub(crate) fn flags_of(word: &[u8]) -> Result<u8, LineKind>
    ensures flags { result ≡ flags_of word.now }
    ensures few { IfOk result (λ flags. flags < 64) }
{
    if is_word(word, b"-") {
        return Ok(0);
    }
    let mut flags = 0;
    for letter in word {
        let bit = flag_bit(*letter)?;
        if bit <= flags {
            return Err(LineKind::Value);
        }
        flags += bit;
    }
    if flags == 0 {
        return Err(LineKind::Value);
    }
    Ok(flags)
}
