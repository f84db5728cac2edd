ghost use Rattle.std.specs.Prelude.{◌≡◌, IfOk, map, true};
ghost use Rattle.mqb_words.specs.Formed.{IsFormed};
ghost use Rattle.mqb_words.specs.Lines.{command_in, is_open_command, with_store, words_in};
ghost use Rattle.mqb_words.specs.Words.{Answers};

use crate::commands::Command;
use crate::faults::WordsFault;
use crate::reading::command_from;
use mqb_forms::parts;
use std::alloc::{AllocError, Global};

/// The words of a line as those of a command line, with no byte for the store.
fn stored_words(alloc: Global, line: &[u8]) -> Result<Vec<&[u8]>, AllocError>
    ensures { IfOk result (λ words. map (λ word. word.now) words.items
        ≡ with_store (words_in line.now)) }
{
    let mut words = parts(alloc, line, b' ')?;
    if !words.is_empty() {
        words.insert(1, b"")?;
    }
    Ok(words)
}

/// What a line asks of a manager that is open. Its words are cut at each space, and are those of a
/// command line but for the store.
pub fn command_in(alloc: Global, line: &[u8]) -> Result<Command, WordsFault>
    ensures line { Answers (command_in line.now) result }
    ensures formed { IfOk result IsFormed }
    ensures open { IfOk result (λ command. is_open_command command ≡ true) }
{
    let words = stored_words(alloc, line)?;
    let command = command_from(alloc, words.as_slice())?;
    if command.is_open_command() {
        Ok(command)
    } else {
        Err(WordsFault::Usage)
    }
}
