//! `mqb_work` takes the messages of a queue of a store one after another, and answers each in the
//! transaction that takes it.
#![tactic(auto)]

mod lines;
mod running;
mod status;
mod turns;
mod words;

use mqb_base::Memory;
use mqb_commands::write_all;
use mqb_disk::FileDisk;
use mqb_forms::LineFault;
use mqb_net::SystemClock;
use mqb_outside::StdSink;
use running::run_worker;
use status::WorkStatus;
use std::alloc::Global;
use std::fs::File;
use std::process::ExitCode;
use std::rt::Env;
use std::{env, io};
use words::job_of;

const HELP: &[u8] = b"mqb_work work STORE QUEUE COUNT PREFIX
  takes up to COUNT messages of a transactional queue, one after another, and sends PREFIX with the body
  behind it to the queue where each asks to be answered, in the transaction that takes it
mqb_work --help
mqb_work --version
";

const VERSION: &[u8] = b"mqb_work 0.1.0\n";

/// The words of the command line, without the program's name; none where one is not UTF-8.
fn words_of(rt: &(impl Env + AllocGlobal), alloc: Global) -> Result<Vec<String>, Memory> {
    let mut words = Vec::new(alloc);
    match env::args(rt) {
        Ok(args) => {
            for word in args.skip(1) {
                words.push(word)?;
            }
        }
        Err(error) if error.kind() == io::ErrorKind::OutOfMemory => return Err(Memory),
        Err(_) => {}
    }
    Ok(words)
}

/// Writes a text alone.
fn say(rt: &HostRuntime, text: &[u8]) -> WorkStatus {
    let mut out = StdSink::new(io::writer(rt));
    match write_all(&mut out, text) {
        Ok(()) => WorkStatus::Done,
        Err(_) => WorkStatus::WriteFault,
    }
}

/// How the program ends without a store.
fn without_store(alloc: Global, words: &[String]) -> WorkStatus {
    match job_of(alloc, words) {
        Ok(_) => WorkStatus::DiskFault,
        Err(LineFault::Faulty(_)) => WorkStatus::Usage,
        Err(LineFault::Memory) => WorkStatus::Memory,
    }
}

/// Works over the store that the second word names, which is held until the end.
fn work(rt: &HostRuntime, alloc: Global, words: &[String]) -> WorkStatus {
    let Some(store) = words.get(1) else {
        return WorkStatus::Usage;
    };
    let Ok(mut disk) = FileDisk::open(rt, store.as_str()) else {
        return without_store(alloc, words);
    };
    let mut out = StdSink::new(io::writer(rt));
    let mut clock = SystemClock::new(rt);
    run_worker(alloc, words, &mut out, &mut disk, &mut clock)
}

/// Does what the words ask for.
fn run_words(rt: &HostRuntime, alloc: Global, words: &[String]) -> WorkStatus {
    match words {
        [word] if word.as_str() == "--help" => say(rt, HELP),
        [word] if word.as_str() == "--version" => say(rt, VERSION),
        _ => work(rt, alloc, words),
    }
}

/// Holds an empty file for each standard stream that is closed. Else the store would get the number
/// of that stream, and with it what is written there.
fn hold_streams(rt: &HostRuntime) -> [io::Result<File>; 3] {
    let empty = "/dev/null";
    [
        File::open(rt, empty),
        File::open(rt, empty),
        File::open(rt, empty),
    ]
}

fn main(rt: HostRuntime) -> ExitCode {
    let _held = hold_streams(&rt);
    let alloc = rt.alloc();
    let status = match words_of(&rt, alloc) {
        Ok(words) => run_words(&rt, alloc, words.as_slice()),
        Err(Memory) => WorkStatus::Memory,
    };
    ExitCode::from(status.exit())
}
