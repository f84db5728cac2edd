ghost use Rattle.std.specs.Prelude.{◌≡◌, ◌≤◌, length, map, IfOk, IsTrue};
ghost use Rattle.std.specs.String.{string_bytes};
ghost use Rattle.mqb_forms.specs.Faults.{Reads};
ghost use Rattle.mqb_words.specs.Words.{alone, of_store, orders_from, init_from, peek_from};
ghost use Rattle.mqb_words.specs.Words.{serve_from, attend_from, push_from, fetch_from};
ghost use Rattle.mqb_words.specs.Words.{command_with, command_from, command_of, Answers};
ghost use Rattle.mqb_words.specs.Stores.{has_store};
ghost use Rattle.mqb_words.specs.Formed.{IsFormed};

use crate::calls::{
    commit_from, create_from, peer_from, purge_from, roll_from, send_from, take_from, tick_from,
};
use crate::commands::{Call, Command};
use crate::faults::WordsFault;
use crate::forms::{Form, form_of};
use crate::values::{
    address_in, connections_of, count_in, identity_of, orders_of, seconds_of, wait_in,
};
use mqb_forms::{LineFault, LineKind, name_of, place_of};
use std::alloc::{AllocError, Global};

/// A command whose first word stands alone.
#[tactic(auto, unfolding(crate::specs::Words::alone))]
fn alone(command: Command, words: &[&[u8]]) -> Result<Command, LineKind>
    ensures { result ≡ alone command (map (λ word. word.now) words.now) }
{
    let [] = words else {
        return Err(LineKind::Value);
    };
    Ok(command)
}

/// A command behind whose first word the store stands, and nothing more.
#[tactic(auto, unfolding(crate::specs::Words::of_store))]
fn of_store(command: Command, words: &[&[u8]]) -> Result<Command, LineKind>
    ensures { result ≡ of_store command (map (λ word. word.now) words.now) }
{
    let [_store] = words else {
        return Err(LineKind::Value);
    };
    Ok(command)
}

/// The count of orders behind the first word.
#[tactic(auto, unfolding(crate::specs::Words::orders_from))]
fn orders_from(words: &[&[u8]]) -> Result<u32, LineKind>
    ensures { result ≡ orders_from (map (λ word. word.now) words.now) }
{
    let [orders] = words else {
        return Err(LineKind::Value);
    };
    orders_of(orders)
}

#[tactic(auto, unfolding(crate::specs::Words::init_from))]
fn init_from(alloc: Global, words: &[&[u8]]) -> Result<Command, LineFault>
    ensures { Reads (init_from (map (λ word. word.now) words.now)) result }
{
    let [_store, host, guid, address] = words else {
        return Err(LineFault::VALUE);
    };
    let identity = identity_of(alloc, host, guid, address)?;
    Ok(Command::Init { identity })
}

#[tactic(auto, unfolding(crate::specs::Words::serve_from))]
fn serve_from(words: &[&[u8]]) -> Result<Command, LineKind>
    ensures { result ≡ serve_from (map (λ word. word.now) words.now) }
{
    let [_store, count] = words else {
        return Err(LineKind::Value);
    };
    let count = connections_of(count)?;
    Ok(Command::Serve { count })
}

#[tactic(auto, unfolding(crate::specs::Words::peek_from))]
fn peek_from(alloc: Global, words: &[&[u8]]) -> Result<Command, LineFault>
    ensures { Reads (peek_from (map (λ word. word.now) words.now)) result }
{
    let [_store, place, words @ ..] = words else {
        return Err(LineFault::VALUE);
    };
    let place = place_of(alloc, place)?;
    let count = count_in(words)?;
    Ok(Command::Peek { place, count })
}

#[tactic(auto, unfolding(crate::specs::Words::attend_from))]
fn attend_from(words: &[&[u8]]) -> Result<Command, LineKind>
    ensures { result ≡ attend_from (map (λ word. word.now) words.now) }
{
    let [_store, wait] = words else {
        return Err(LineKind::Value);
    };
    let seconds = seconds_of(wait)?;
    Ok(Command::Attend { seconds })
}

#[tactic(auto, unfolding(crate::specs::Words::push_from))]
fn push_from(alloc: Global, words: &[&[u8]]) -> Result<Command, LineFault>
    ensures { Reads (push_from (map (λ word. word.now) words.now)) result }
{
    let [_store, host, words @ ..] = words else {
        return Err(LineFault::VALUE);
    };
    let host = name_of(alloc, host)?;
    let address = address_in(alloc, words)?;
    Ok(Command::Push { host, address })
}

#[tactic(auto, unfolding(crate::specs::Words::fetch_from))]
fn fetch_from(alloc: Global, words: &[&[u8]]) -> Result<Command, LineFault>
    ensures { Reads (fetch_from (map (λ word. word.now) words.now)) result }
{
    let [_store, host, words @ ..] = words else {
        return Err(LineFault::VALUE);
    };
    let host = name_of(alloc, host)?;
    let (address, seconds) = wait_in(alloc, words)?;
    Ok(Command::Fetch {
        host,
        address,
        seconds,
    })
}

/// The command of the words of a form, from those behind the first one.
#[tactic(auto, unfolding(crate::specs::Words::command_with))]
fn command_with(alloc: Global, form: Form, words: &[&[u8]]) -> Result<Command, LineFault>
    ensures { Reads (command_with form (map (λ word. word.now) words.now)) result }
{
    match form {
        Form::Replay => Ok(alone(Command::Replay, words)?),
        Form::Make => Ok(Command::Make {
            orders: orders_from(words)?,
        }),
        Form::Trial => Ok(Command::Trial {
            orders: orders_from(words)?,
        }),
        Form::Show => Ok(alone(Command::Show, words)?),
        Form::Init => init_from(alloc, words),
        Form::Peer => Ok(Command::Call(peer_from(alloc, words)?)),
        Form::Create => Ok(Command::Call(create_from(alloc, words)?)),
        Form::Send => Ok(Command::Call(send_from(alloc, words)?)),
        Form::Commit => Ok(Command::Call(commit_from(alloc, words)?)),
        Form::Take => Ok(Command::Call(take_from(alloc, words)?)),
        Form::Purge => Ok(Command::Call(purge_from(alloc, words)?)),
        Form::Tick => Ok(Command::Call(tick_from(words)?)),
        Form::Roll => Ok(Command::Call(roll_from(words)?)),
        Form::Checkpoint => Ok(of_store(Command::Checkpoint, words)?),
        Form::List => Ok(of_store(Command::List, words)?),
        Form::Peek => peek_from(alloc, words),
        Form::Probe => Ok(of_store(Command::Probe, words)?),
        Form::Shell => Ok(of_store(Command::Shell, words)?),
        Form::Serve => Ok(serve_from(words)?),
        Form::Attend => Ok(attend_from(words)?),
        Form::Push => push_from(alloc, words),
        Form::Fetch => fetch_from(alloc, words),
        Form::Help => Ok(alone(Command::Help, words)?),
        Form::Version => Ok(alone(Command::Version, words)?),
    }
}

#[tactic(auto, unfolding(crate::specs::Words::command_from))]
pub(crate) fn command_from(alloc: Global, words: &[&[u8]]) -> Result<Command, LineFault>
    ensures { Reads (command_from (map (λ word. word.now) words.now)) result }
{
    let [word, words @ ..] = words else {
        return Err(LineFault::Faulty(LineKind::Word));
    };
    let form = form_of(word)?;
    command_with(alloc, form, words)
}

pub(crate) fn bytes_of(alloc: Global, words: &[String]) -> Result<Vec<&[u8]>, AllocError>
    ensures { IfOk result (λ bytes. map (λ word. word.now) bytes.items
        ≡ map string_bytes words.now) }
{
    words.iter().map(|word| word.as_bytes()).collect(alloc)
}

/// What the words of a command line ask for, without the program's name. A command of a store has
/// the store as its second word.
pub fn command_of(alloc: Global, words: &[String]) -> Result<Command, WordsFault>
    ensures words { Answers (command_of (map string_bytes words.now)) result }
    ensures formed { IfOk result IsFormed }
    ensures store { IfOk result (λ command. IsTrue (has_store command) → 2 ≤ length words.now) }
{
    let bytes = bytes_of(alloc, words)?;
    Ok(command_from(alloc, bytes.as_slice())?)
}
