ghost use Rattle.std.specs.Prelude.{◌≡◌, ◌==◌, ◌<◌, length, map, IfOk, IfSome};
ghost use Rattle.std.specs.List.{position};
ghost use Rattle.mqb_picture.specs.Texts.{clipped, told, request_of, first_word};

use mqb_base::{Bytes, Memory};
use std::alloc::Global;

/// The greatest length of a text in a picture.
const MAX_TEXT: usize = 64;

/// A text, or its front and two dots where it is too long.
#[tactic(auto, unfolding(crate::specs::Texts::clipped))]
pub fn clipped(alloc: Global, text: &[u8]) -> Result<Bytes, Memory>
    ensures { IfOk result (λ copy. copy ≡ clipped text.now) }
{
    if text.len() <= MAX_TEXT {
        return Bytes::from_slice(alloc, text);
    }
    let (front, _) = text.split_at(MAX_TEXT - 2);
    let mut front = Vec::from_slice(alloc, front)?;
    front.extend_from_slice(b"..")?;
    Bytes::from_slice(alloc, &front)
}

/// A request and what was said to it.
#[tactic(auto, unfolding(crate::specs::Texts::told))]
pub fn told(alloc: Global, request: &[u8], said: &[u8]) -> Result<Bytes, Memory>
    ensures { IfOk result (λ text. text ≡ told request.now said.now) }
{
    let mut text = Vec::from_slice(alloc, request)?;
    text.extend_from_slice(b": ")?;
    text.extend_from_slice(said)?;
    clipped(alloc, &text)
}

/// The first word of a line, and the third where there is one: the second tells of whom.
#[tactic(auto, unfolding(crate::specs::Texts::request_of))]
pub fn request_of(alloc: Global, words: &[&[u8]]) -> Result<Vec<u8>, Memory>
    ensures { IfOk result
        (λ text. text.items ≡ request_of (map (λ word. word.now) words.now)) }
{
    let [word, words @ ..] = words else {
        return Ok(Vec::new(alloc));
    };
    let mut text = Vec::from_slice(alloc, word)?;
    if let [_, word, ..] = words {
        text.extend_from_slice(b" ")?;
        text.extend_from_slice(word)?;
    }
    Ok(text)
}

fn space_at(text: &[u8]) -> Option<usize>
    ensures at { result ≡ position (λ b. b == 32) text.now }
    ensures within { IfSome result (λ i. i < length text.now) }
{
    text.iter().position(|byte| *byte == b' ')
}

#[tactic(auto, unfolding(crate::specs::Texts::first_word))]
pub fn first_word(text: &[u8]) -> &[u8]
    ensures { result.now ≡ first_word text.now }
{
    match space_at(text) {
        Some(end) => &text[..end],
        None => text,
    }
}
