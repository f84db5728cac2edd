//! `mqb` replays scripts over two message queue managers, and is one such manager on a file.
#![tactic(auto)]

mod hints;
mod no_disk;
mod run;
mod saying;
mod settings;

use hints::{Ending, say_memory, say_misfit, say_next, say_setting};
use mqb_base::Memory;
use mqb_commands::Status;
use mqb_disk::{FileDisk, MemoryDisk, OpenFault};
use mqb_net::{PatientNet, SystemClock, TcpNet};
use mqb_outside::{Disk, MemoryMedium, Power, StdSink, StdSource};
use mqb_words::{Command, WordsFault, command_of};
use no_disk::NoDisk;
use run::run;
use settings::Settings;
use std::alloc::Global;
use std::fs::File;
use std::process::ExitCode;
use std::rt::Env;
use std::time::Duration;
use std::{env, io, thread};

/// The words of the command line, without the program's name; none where one is not UTF-8, since no
/// command has such a word.
fn words_of(rt: &(impl Env + AllocGlobal), alloc: Global) -> Result<Vec<String>, Memory> {
    let mut words = Vec::new(alloc);
    match env::args(rt) {
        Ok(args) => {
            for word in args.skip(1) {
                words.push(word)?;
            }
        }
        Err(error) if error.kind() == io::ErrorKind::OutOfMemory => return Err(Memory),
        Err(_) => {}
    }
    Ok(words)
}

/// The room of each of the two disks of a replay, in bytes.
const MAX_REPLAY_DISK: usize = 67_108_864;

/// The disks that a command works on.
enum Disks {
    /// The store of a manager.
    Store(FileDisk),
    /// Alpha's and beta's.
    Replay(MemoryDisk, MemoryDisk),
    /// It has none, or its store is not open.
    None(Option<OpenFault>),
}

/// Opens the file that is the store of a command. `init` makes it where it is not there, and what
/// only reads it shares it.
fn open(rt: &HostRuntime, command: &Command, store: &str) -> Result<FileDisk, OpenFault> {
    match command {
        Command::Init { .. } => FileDisk::create(rt, store),
        Command::List | Command::Peek { .. } => FileDisk::open_shared(rt, store),
        _ => FileDisk::open(rt, store),
    }
}

/// How often a store in use is tried in a second, and the milliseconds between.
const TRIES: u64 = 10;

const PAUSE: u64 = 100;

/// Opens the store of a command, for so many seconds again and again while
/// another program holds it.
fn open_within(
    rt: &HostRuntime,
    command: &Command,
    store: &str,
    seconds: u32,
) -> Result<FileDisk, OpenFault> {
    for _ in 0..u64::from(seconds) * TRIES {
        match open(rt, command, store) {
            Err(OpenFault::InUse) => thread::sleep(rt, Duration::from_millis(PAUSE)),
            opened => return opened,
        }
    }
    open(rt, command, store)
}

fn disks_of(
    rt: &HostRuntime,
    alloc: Global,
    command: &Command,
    words: &[String],
    settings: Settings,
) -> Result<Disks, Memory> {
    if matches!(command, Command::Replay | Command::Trial { .. }) {
        let alpha = MemoryDisk::new(alloc, MAX_REPLAY_DISK)?;
        let beta = MemoryDisk::new(alloc, MAX_REPLAY_DISK)?;
        return Ok(Disks::Replay(alpha, beta));
    }
    let Some(store) = command.store_of(words) else {
        return Ok(Disks::None(None));
    };
    match open_within(rt, command, store.as_str(), settings.hold) {
        Ok(disk) => Ok(Disks::Store(disk)),
        Err(fault) => Ok(Disks::None(Some(fault))),
    }
}

/// The net of a command: of a fetch its connections end by silence.
fn net_of(rt: &HostRuntime, command: &Command, settings: Settings) -> TcpNet {
    let mut net = TcpNet::with_port(rt, settings.port);
    net.set_max_wait(settings.wait);
    if let Command::Fetch { seconds, .. } = command {
        net.end_by_silence(Some(*seconds));
    }
    net
}

/// Does what the words ask for, over these disks, this net and the other real objects.
fn run_over<D: Disk, P: Power>(
    rt: &HostRuntime,
    alloc: Global,
    words: &[String],
    disk: &mut D,
    first: &mut P,
    second: &mut P,
    net: &mut TcpNet,
) -> Status {
    let mut input = StdSource::new(rt.reader());
    let mut out = StdSink::new(io::writer(rt));
    let mut medium = MemoryMedium::new(alloc);
    let mut clock = SystemClock::new(rt);
    run(
        alloc,
        words,
        &mut input,
        &mut out,
        disk,
        first,
        second,
        &mut medium,
        net,
        &mut clock,
    )
}

/// Does what the words ask for over no disk at all.
fn run_bare(rt: &HostRuntime, alloc: Global, words: &[String], net: &mut TcpNet) -> Status {
    let mut none = NoDisk::new();
    let (mut first, mut second) = (NoDisk::new(), NoDisk::new());
    run_over(rt, alloc, words, &mut none, &mut first, &mut second, net)
}

/// Does a command that the words are, and says why it did not come to its end.
fn run_command(
    rt: &HostRuntime,
    alloc: Global,
    command: &Command,
    words: &[String],
    settings: Settings,
) -> Result<Status, Memory> {
    let mut net = net_of(rt, command, settings);
    let mut fault = None;
    let status = match disks_of(rt, alloc, command, words, settings)? {
        Disks::Store(mut disk) => {
            let (mut first, mut second) = (NoDisk::new(), NoDisk::new());
            run_over(
                rt,
                alloc,
                words,
                &mut disk,
                &mut first,
                &mut second,
                &mut net,
            )
        }
        Disks::Replay(mut alpha, mut beta) => {
            let mut none = NoDisk::new();
            run_over(rt, alloc, words, &mut none, &mut alpha, &mut beta, &mut net)
        }
        Disks::None(why) => {
            fault = why;
            run_bare(rt, alloc, words, &mut net)
        }
    };
    let store = match command.store_of(words) {
        Some(store) => store.as_str(),
        None => "",
    };
    say_next(
        rt,
        &Ending {
            asked: command,
            store,
            fault,
            port: settings.port,
            status,
        },
    );
    Ok(status)
}

/// Does what the words ask for.
fn run_words(rt: &HostRuntime, alloc: Global) -> Result<Status, Memory> {
    let settings = match Settings::of_environment(rt) {
        Ok(settings) => settings,
        Err(fault) => return Ok(say_setting(rt, fault)),
    };
    let words = words_of(rt, alloc)?;
    match command_of(alloc, &words) {
        Ok(command) => run_command(rt, alloc, &command, &words, settings),
        Err(WordsFault::Memory) => Err(Memory),
        Err(WordsFault::Usage) => {
            let mut net = TcpNet::with_port(rt, settings.port);
            let status = run_bare(rt, alloc, &words, &mut net);
            say_misfit(rt, alloc, &words);
            Ok(status)
        }
    }
}

/// Holds an empty file for each standard stream that is closed. Else the store would get the number
/// of that stream, and with it what is written there.
fn hold_streams(rt: &HostRuntime) -> [io::Result<File>; 3] {
    let empty = "/dev/null";
    [
        File::open(rt, empty),
        File::open(rt, empty),
        File::open(rt, empty),
    ]
}

fn main(rt: HostRuntime) -> ExitCode {
    let _held = hold_streams(&rt);
    let alloc = rt.alloc();
    let status = match run_words(&rt, alloc) {
        Ok(status) => status,
        Err(Memory) => {
            say_memory(&rt);
            Status::Memory
        }
    };
    ExitCode::from(status.exit())
}
