//! `mqb_inspect` says whether a capture of one end of a connection is lawful, and which packet
//! breaks it where it is not.
#![tactic(auto)]

mod cutting;
mod fitting;
mod grammar;
mod input;
mod inspect;
mod inspection;
mod links;
mod output;
mod run;
mod session;
mod standing;
mod texts;

use mqb_base::Memory;
use mqb_outside::{StdSink, StdSource};
use output::write_all;
use run::{InspectStatus, run_inspect};
use std::alloc::Global;
use std::process::ExitCode;
use std::rt::Env;
use std::{env, io};

/// What `--help` prints.
const HELP: &[u8] =
    b"mqb_inspect inspect < CAPTURE   says whether a capture of one end of a connection is lawful, and which packet breaks it where it is not\n";

/// The words of the command line, without the program's name; none where one is not UTF-8.
fn words_of(rt: &(impl Env + AllocGlobal), alloc: Global) -> Result<Vec<String>, Memory> {
    let mut words = Vec::new(alloc);
    match env::args(rt) {
        Ok(args) => {
            for word in args.skip(1) {
                words.push(word)?;
            }
        }
        Err(error) if error.kind() == io::ErrorKind::OutOfMemory => return Err(Memory),
        Err(_) => {}
    }
    Ok(words)
}

/// What the program says of itself, where that is what the words ask for.
fn said_of_itself(words: &[String]) -> Option<&'static [u8]> {
    match words {
        [word] if word.as_bytes() == b"--help".as_slice() => Some(HELP),
        [word] if word.as_bytes() == b"--version".as_slice() => Some(b"mqb_inspect 0.1.0\n"),
        _ => None,
    }
}

/// Does what the words ask for.
fn run_words(rt: &HostRuntime, alloc: Global, words: &[String]) -> InspectStatus {
    let mut out = StdSink::new(io::writer(rt));
    if let Some(text) = said_of_itself(words) {
        return match write_all(&mut out, text) {
            Ok(()) => InspectStatus::Lawful,
            Err(_) => InspectStatus::WriteFault,
        };
    }
    let mut input = StdSource::new(rt.reader());
    run_inspect(alloc, words, &mut input, &mut out)
}

fn main(rt: HostRuntime) -> ExitCode {
    let alloc = rt.alloc();
    let status = match words_of(&rt, alloc) {
        Ok(words) => run_words(&rt, alloc, &words),
        Err(Memory) => InspectStatus::Memory,
    };
    ExitCode::from(status.exit())
}
