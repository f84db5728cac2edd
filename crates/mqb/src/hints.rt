//! What is said on standard error: why a command did not come to its end, and what to do next.

use crate::settings::SettingsFault;
use mqb_commands::{Status, help};
use mqb_disk::OpenFault;
use mqb_words::{Command, Misfit, misfit_of};
use std::alloc::Global;
use std::io::{self, Write};

/// What a hint tells of.
#[derive(Clone, Copy)]
pub(crate) struct Ending<'a> {
    /// The command, and its store where it has one.
    pub(crate) asked: &'a Command,
    pub(crate) store: &'a str,
    /// Why its store is not open.
    pub(crate) fault: Option<OpenFault>,
    pub(crate) port: u16,
    pub(crate) status: Status,
}

const MEMORY: &str = "memory ran out";

const OUTPUT: &str = "the output could not be written: make room there, or keep its reader open";

const INPUT: &str =
    "the input could not be read: give a file or a pipe, as in mqb replay < examples/one_message.mqb";

const SCRIPT: &str =
    "docs/FORMATS.md has the lines and the limits of a script under \"Script\"; examples/ has scripts";

const DEVICE: &str =
    "a call of the disk failed: see that there is room, and that the disk is sound";

const STOPPED: &str = "the stores of the replay could not be made";

const LISTENING: &str = "it may be that another program has it; MQB_PORT names another port";

const REACHING: &str =
    "let mqb serve run at the address of the peer, both on one port, and call again: what was committed is kept";

const PACKETS: &str =
    "the input ended badly, or is no row of packets: docs/FORMATS.md has the ends under \"Words, fault lines and exit statuses\"";

const PEER: &str =
    "what came ended badly, or did not fit: docs/FORMATS.md has the ends under \"Words, fault lines and exit statuses\"; what was committed is kept, so let it be sent again";

const LINE: &str =
    "the input ended within a line, which was not done: end each line with a line feed";

const MEDIUM: &str = "the packets of the script do not fit: a replay has room for 268435456 bytes";

const REFUSED: &str =
    "refused, and nothing changed: docs/FORMATS.md says when under \"Every reply\"; mqb list shows what there is";

const UNKNOWN: &str = "the store knows no such host: mqb peer makes it known";

/// Says that memory ran out before anything was done.
pub(crate) fn say_memory(rt: &HostRuntime) {
    let _said = eprintln!(rt; "mqb: {MEMORY}");
}

/// Says which setting of the environment is no number within its bounds, and how the program ends.
pub(crate) fn say_setting(rt: &HostRuntime, fault: SettingsFault) -> Status {
    match fault {
        SettingsFault::Memory => {
            say_memory(rt);
            Status::Memory
        }
        SettingsFault::Value {
            name,
            least,
            greatest,
        } => {
            let _said = eprintln!(rt; "mqb: {name} is no number from {least} to {greatest}");
            Status::Usage
        }
    }
}

/// The first word of a row of the help.
fn word_of_row(line: &[u8]) -> Option<&[u8]> {
    line.strip_prefix(b"mqb ")?
        .split(|byte| *byte == b' ')
        .next()
}

/// Writes the rows of the help that have this first word, with their examples.
fn write_rows<W: Write>(out: &mut W, word: &[u8]) -> io::Result<()> {
    let mut is_shown = false;
    for line in help().split(|byte| *byte == b'\n') {
        if !line.starts_with(b" ") {
            is_shown = word_of_row(line) == Some(word);
        }
        if is_shown {
            out.write_all(line)?;
            out.write_all(b"\n")?;
        }
    }
    Ok(())
}

/// Writes the first words that there are.
fn write_words<W: Write>(out: &mut W) -> io::Result<()> {
    for line in help().split(|byte| *byte == b'\n') {
        if let Some(word) = word_of_row(line) {
            out.write_all(b" ")?;
            out.write_all(word)?;
        }
    }
    out.write_all(b"\n")
}

/// Says which word is at fault, and how the words of its command go.
fn write_misfit(rt: &HostRuntime, words: &[String], misfit: Misfit) -> io::Result<()> {
    let mut out = rt.stderr();
    let Some(first) = words.first() else {
        return out.write_all(help());
    };
    match misfit {
        Misfit::Word { at: 0 } => {
            eprint!(rt; "mqb: {first:?} is none of the words that there are:")?;
            write_words(&mut out)
        }
        Misfit::Word { at } => {
            let word = words.get(at).unwrap_or(first);
            eprintln!(rt; "mqb: {word:?} does not fit here, as word {at} behind {first}:")?;
            write_rows(&mut out, first.as_bytes())
        }
        Misfit::TooFew => {
            eprintln!(rt; "mqb: more words are wanted behind {first}:")?;
            write_rows(&mut out, first.as_bytes())
        }
    }
}

/// Says which word of a command line is at fault.
pub(crate) fn say_misfit(rt: &HostRuntime, alloc: Global, words: &[String]) {
    if let Ok(Some(misfit)) = misfit_of(alloc, words) {
        let _said = write_misfit(rt, words, misfit);
    }
}

/// Says why a store is not open.
fn say_unopened(rt: &HostRuntime, store: &str, fault: OpenFault) -> io::Result<()> {
    match fault {
        OpenFault::InUse => eprintln!(rt;
            "mqb: another program holds {store:?}, so nothing was done: let it end, and call again (MQB_HOLD is how many seconds it is waited for)"
        ),
        OpenFault::Missing => {
            eprintln!(rt; "mqb: there is no file {store:?}: mqb init makes a store")
        }
        OpenFault::Failed => eprintln!(rt;
            "mqb: {store:?} cannot be opened: see that it is a file that may be read and written, on a file system with locks"
        ),
    }
}

/// Whether a command may have changed what its store holds though it did not come to its end.
fn may_have_changed(ending: &Ending<'_>) -> bool {
    let changes_nothing = matches!(
        ending.asked,
        Command::List | Command::Peek { .. } | Command::Checkpoint
    );
    ending.asked.has_store() && !changes_nothing && ending.fault.is_none()
}

/// Says why a command ended so, and where it may have changed its store all the
/// same, how to see that.
fn say_cut_off(rt: &HostRuntime, ending: &Ending<'_>, why: &str) -> io::Result<()> {
    eprintln!(rt; "mqb: {why}")?;
    if may_have_changed(ending) {
        let store = ending.store;
        eprintln!(rt;
            "mqb: what was asked may have been done all the same: look with mqb list {store:?} before you ask again"
        )?;
    }
    Ok(())
}

/// Says why the net gave no connection.
fn say_net(rt: &HostRuntime, ending: &Ending<'_>) -> io::Result<()> {
    let port = ending.port;
    match ending.asked {
        Command::Push { .. } | Command::Fetch { .. } => {
            eprintln!(rt; "mqb: no connection on port {port}, or it was lost: {REACHING}")
        }
        _ => eprintln!(rt; "mqb: no connection came on port {port}: {LISTENING}"),
    }
}

/// Says that a file is none that the command wants.
fn say_no_store(rt: &HostRuntime, store: &str, at: u64) -> io::Result<()> {
    eprintln!(rt;
        "mqb: {store:?} is no store: byte {at} is the first that is wrong. Is it the right file? mqb init makes a store of one that is empty or not there"
    )
}

/// What to do where bytes that came were bad, by the command.
fn peer_advice(asked: &Command) -> &'static str {
    match asked {
        Command::Show => PACKETS,
        Command::Shell => LINE,
        _ => PEER,
    }
}

/// What to do after a refusal, by the command.
fn refusal_advice(asked: &Command) -> &'static str {
    match asked {
        Command::Push { .. } | Command::Fetch { .. } => UNKNOWN,
        _ => REFUSED,
    }
}

/// What to do where a call of a disk failed, by the command.
fn disk_advice(asked: &Command) -> &'static str {
    if asked.has_store() { DEVICE } else { STOPPED }
}

fn write_next(rt: &HostRuntime, ending: &Ending<'_>) -> io::Result<()> {
    let asked = ending.asked;
    match ending.status {
        Status::Done | Status::Usage => Ok(()),
        Status::Script { .. } | Status::TooLong | Status::TooManyLines => {
            eprintln!(rt; "mqb: {SCRIPT}")
        }
        Status::ReadFault => eprintln!(rt; "mqb: {INPUT}"),
        Status::WriteFault => say_cut_off(rt, ending, OUTPUT),
        Status::DiskFault => match ending.fault {
            Some(fault) => say_unopened(rt, ending.store, fault),
            None => say_cut_off(rt, ending, disk_advice(asked)),
        },
        Status::NetFault => say_net(rt, ending),
        Status::BadStore { at } => say_no_store(rt, ending.store, at),
        Status::NotEmpty => eprintln!(rt; "mqb: init wants a file that is empty or not there"),
        Status::Peer(_) => {
            let advice = peer_advice(asked);
            eprintln!(rt; "mqb: {advice}")
        }
        Status::NetFull => eprintln!(rt; "mqb: {MEDIUM}"),
        Status::Memory => say_cut_off(rt, ending, MEMORY),
        Status::Refused => {
            let advice = refusal_advice(asked);
            eprintln!(rt; "mqb: {advice}")
        }
    }
}

/// Says why a command ended so, and what to do next.
pub(crate) fn say_next(rt: &HostRuntime, ending: &Ending<'_>) {
    let _said = write_next(rt, ending);
}
