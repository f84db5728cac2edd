ghost use Rattle.std.specs.Prelude.{◌≡◌, map};
ghost use Rattle.mqb_picture.specs.Asked.{asked_at, asked_about, asked_of};

use crate::sides::side_of;
use crate::words::{is_word, packet_of};
use mqb_svg::Side;

/// What a line of a script asks, as far as a picture tells it apart.
#[derive(Clone, Copy)]
pub enum Asked {
    /// `connect M ..`
    Connect(Side),
    /// `disconnect`
    Disconnect,
    /// `pump M ..`
    Pump(Side),
    /// `flow M ..`
    Flow(Side),
    /// `deliver K ..` or `drop K`
    Packet(usize),
    /// Anything else of a manager.
    At(Side),
}

/// What the first word of a line asks of a manager.
#[tactic(auto, unfolding(crate::specs::Asked::asked_at))]
fn asked_at(word: &[u8], side: Side) -> Asked
    ensures { result ≡ asked_at word.now side }
{
    if is_word(word, b"connect") {
        Asked::Connect(side)
    } else if is_word(word, b"pump") {
        Asked::Pump(side)
    } else if is_word(word, b"flow") {
        Asked::Flow(side)
    } else {
        Asked::At(side)
    }
}

/// What the first word of a line asks of the second, which is a packet or a manager.
#[tactic(auto, unfolding(crate::specs::Asked::asked_about))]
fn asked_about(word: &[u8], object: &[u8]) -> Option<Asked>
    ensures { result ≡ asked_about word.now object.now }
{
    if is_word(word, b"deliver") || is_word(word, b"drop") {
        return Some(Asked::Packet(packet_of(object)?));
    }
    Some(asked_at(word, side_of(object)?))
}

/// What the words of a line ask.
#[tactic(auto, unfolding(crate::specs::Asked::asked_of))]
pub fn asked_of(words: &[&[u8]]) -> Option<Asked>
    ensures { result ≡ asked_of (map (λ word. word.now) words.now) }
{
    match words {
        [word, object, ..] => asked_about(word, object),
        [word] => is_word(word, b"disconnect").then_some(Asked::Disconnect),
        [] => None,
    }
}
