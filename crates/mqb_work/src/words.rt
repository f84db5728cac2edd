//! What the words of the command line ask for.
ghost use Rattle.std.specs.List.{list_all};
ghost use Rattle.std.specs.Prelude.{◌≡◌, ◌≤◌, IfOk, length, map};
ghost use Rattle.std.specs.String.{string_bytes};
ghost use Rattle.mqb_forms.specs.Faults.{Reads};
ghost use Rattle.mqb_work.specs.Words.{is_prefix, is_prefix_byte, job_by, job_from};
ghost use Rattle.mqb_work.specs.Words.{prefix_of, steps_of};

use mqb_base::Name;
use mqb_forms::{LineFault, LineKind, is_word, name_of, number_in};
use mqb_worker::Prefix;
use std::alloc::{AllocError, Global};

/// What is worked: a queue, how many steps at most, and what stands before the body of each answer.
#[derive(Debug, Drop)]
pub struct Job {
    pub queue: Name,
    pub count: u32,
    pub prefix: Prefix,
}

const MAX_STEPS: u32 = 1_000_000;

const MAX_PREFIX: usize = 64;

fn steps_of(word: &[u8]) -> Result<u32, LineKind>
    ensures { result ≡ steps_of word.now }
{
    number_in(1, MAX_STEPS, word)
}

fn are_prefix_bytes(word: &[u8]) -> bool
    ensures { result ≡ list_all is_prefix_byte word.now }
{
    word.iter().all(|byte| matches!(*byte, 0x21..=0x7E))
}

fn is_prefix(word: &[u8]) -> bool
    ensures { result ≡ is_prefix word.now }
{
    !word.is_empty() && word.len() <= MAX_PREFIX && are_prefix_bytes(word)
}

fn prefix_of(alloc: Global, word: &[u8]) -> Result<Prefix, LineFault>
    ensures { Reads (prefix_of word.now) result }
{
    if !is_prefix(word) {
        return Err(LineFault::VALUE);
    }
    Ok(Prefix::new(alloc, word)?)
}

#[tactic(auto, unfolding(crate::specs::Words::job_by))]
fn job_by(alloc: Global, queue: &[u8], count: &[u8], prefix: &[u8]) -> Result<Job, LineFault>
    ensures { Reads (job_by queue.now count.now prefix.now) result }
{
    let queue = name_of(alloc, queue)?;
    let count = steps_of(count)?;
    let prefix = prefix_of(alloc, prefix)?;
    Ok(Job {
        queue,
        count,
        prefix,
    })
}

#[tactic(auto, unfolding(crate::specs::Words::job_from))]
fn job_from(alloc: Global, words: &[&[u8]]) -> Result<Job, LineFault>
    ensures { Reads (job_from (map (λ word. word.now) words.now)) result }
{
    let [word, _store, queue, count, prefix] = words else {
        return Err(LineFault::VALUE);
    };
    if !is_word(word, b"work") {
        return Err(LineFault::VALUE);
    }
    job_by(alloc, queue, count, prefix)
}

fn bytes_of(alloc: Global, words: &[String]) -> Result<Vec<&[u8]>, AllocError>
    ensures { IfOk result (λ bytes. map (λ word. word.now) bytes.items
        ≡ map string_bytes words.now) }
{
    words.iter().map(|word| word.as_bytes()).collect(alloc)
}

/// What the words of a command line ask for, without the program's name.
pub(crate) fn job_of(alloc: Global, words: &[String]) -> Result<Job, LineFault>
    ensures { Reads (job_from (map string_bytes words.now)) result }
{
    let bytes = bytes_of(alloc, words)?;
    job_from(alloc, bytes.as_slice())
}
