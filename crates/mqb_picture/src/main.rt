//! `mqb_picture` draws what `mqb replay` wrote of a script as a sequence diagram.
#![tactic(auto)]

mod asked;
mod faults;
mod input;
mod laws;
mod marks;
mod output;
mod packets;
mod picture;
mod reading;
mod run;
mod sides;
mod texts;
mod words;

use mqb_outside::{StdSink, StdSource};
use run::run;
use std::io;
use std::process::ExitCode;

fn main(rt: HostRuntime) -> ExitCode {
    let mut input = StdSource::new(rt.reader());
    let mut out = StdSink::new(io::writer(&rt));
    let status = run(rt.alloc(), &mut input, &mut out);
    ExitCode::from(status.exit())
}
