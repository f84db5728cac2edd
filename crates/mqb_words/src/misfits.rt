ghost use Rattle.std.specs.Prelude.{◌≡◌, ◌≤◌, is_some, length, map, IfOk};
ghost use Rattle.std.specs.String.{string_bytes};
ghost use Rattle.mqb_words.specs.Misfits.{FindsUnfit, TellsMisfit, begins, sample_for};
ghost use Rattle.mqb_words.specs.Words.{command_of};

use crate::forms::form_of;
use crate::reading::{bytes_of, command_from};
use mqb_forms::{LineFault, parts};
use std::alloc::{AllocError, Global};

/// Why words are no command.
#[derive(Clone, Copy, Debug, PartialEq, Eq)]
pub enum Misfit {
    /// The word at this place, counted from 0, is the first one that does not fit.
    Word { at: usize },
    /// Each word fits, and more are wanted.
    TooFew,
}

fn is_command(alloc: Global, words: &[&[u8]]) -> Result<bool, AllocError>
    ensures { IfOk result (λ is. is ≡ is_some (command_of (map (λ word. word.now) words.now))) }
{
    match command_from(alloc, words) {
        Ok(_) => Ok(true),
        Err(LineFault::Faulty(_)) => Ok(false),
        Err(LineFault::Memory) => Err(AllocError),
    }
}

/// Whether so many first words are the beginning of a command.
fn begins(
    alloc: Global,
    words: &[&[u8]],
    sample: &[&[u8]],
    count: usize,
) -> Result<bool, AllocError>
    requires { count ≤ length words.now }
    ensures { IfOk result (λ is. is ≡ begins (map (λ word. word.now) words.now)
        (map (λ word. word.now) sample.now) count) }
{
    let mut tried = Vec::new(alloc);
    tried.extend_from_slice(&words[..count])?;
    if count < sample.len() {
        tried.extend_from_slice(&sample[count..])?;
    }
    is_command(alloc, &tried)
}

/// The place of the first word that does not fit.
fn first_unfit(
    alloc: Global,
    words: &[&[u8]],
    sample: &[&[u8]],
) -> Result<Option<usize>, AllocError>
    ensures { IfOk result (FindsUnfit (map (λ word. word.now) words.now)
        (map (λ word. word.now) sample.now)) }
{
    for at in 0..words.len() {
        if !begins(alloc, words, sample, at + 1)? {
            return Ok(Some(at));
        }
    }
    Ok(None)
}

/// The words of a command of the form that the first word tells, where it tells one.
fn sample_for(alloc: Global, words: &[&[u8]]) -> Result<Vec<&'static [u8]>, AllocError>
    ensures { IfOk result (λ sample. map (λ word. word.now) sample.items
        ≡ sample_for (map (λ word. word.now) words.now)) }
{
    let [word, ..] = words else {
        return Ok(Vec::new(alloc));
    };
    match form_of(word) {
        Ok(form) => parts(alloc, form.sample(), b' '),
        Err(_) => Ok(Vec::new(alloc)),
    }
}

/// Why the words of a command line, without the program's name, are no command;
/// none where they are one.
pub fn misfit_of(alloc: Global, words: &[String]) -> Result<Option<Misfit>, AllocError>
    ensures { IfOk result (TellsMisfit (map string_bytes words.now)) }
{
    let words = bytes_of(alloc, words)?;
    if is_command(alloc, &words)? {
        return Ok(None);
    }
    let sample = sample_for(alloc, &words)?;
    match first_unfit(alloc, &words, &sample)? {
        Some(at) => Ok(Some(Misfit::Word { at })),
        None => Ok(Some(Misfit::TooFew)),
    }
}
