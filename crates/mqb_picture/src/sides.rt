ghost use Rattle.std.specs.Prelude.{◌≡◌};
ghost use Rattle.mqb_picture.specs.Sides.{side_of};

use crate::words::is_word;
use mqb_svg::Side;

/// The manager that a word is.
#[tactic(auto, unfolding(crate::specs::Sides::side_of))]
pub fn side_of(word: &[u8]) -> Option<Side>
    ensures { result ≡ side_of word.now }
{
    if is_word(word, b"alpha") {
        return Some(Side::Alpha);
    }
    if is_word(word, b"beta") {
        return Some(Side::Beta);
    }
    None
}
