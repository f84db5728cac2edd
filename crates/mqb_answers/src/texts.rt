//! The text of what is told.
ghost use Rattle.std.specs.List.{filter_map, flat_map};
ghost use Rattle.std.specs.Option.{option_map_or};
ghost use Rattle.std.specs.Prelude.{[], ◌++◌, ◌≡◌, OnErr, OnOk};
ghost use Rattle.mqb_answers.specs.Texts.{body_line, body_text, said_line, told_text};
ghost use Rattle.mqb_answers.specs.Told.{messages_of, took};

use crate::told::{Said, Taken, Told};
use mqb_base::{Identity, Memory, Message};
use mqb_model::Done;
use mqb_transcript::print_reply;
use std::alloc::Global;

#[tactic(auto, unfolding(crate::specs::Texts::said_line))]
fn put_said(
    alloc: Global,
    said: &Said,
    hosts: &[Identity],
    text: &mut Vec<u8>,
) -> Result<(), Memory>
    ensures { OnOk result (text.new.items ≡ text.old.items ++ said_line hosts.now said.now) }
{
    match said {
        Said::Reply(reply) => print_reply(alloc, None, reply, hosts, text),
        Said::PeerThere => put(text, b"peerthere\n"),
        Said::TooManyPeers => put(text, b"toomanypeers\n"),
    }
}

fn put(text: &mut Vec<u8>, more: &[u8]) -> Result<(), Memory>
    ensures { OnOk result (text.new.items ≡ text.old.items ++ more.now) }
{
    text.extend_from_slice(more)?;
    Ok(())
}

/// A body in hexadecimal behind a space, where it has a byte.
#[tactic(auto, unfolding(crate::specs::Texts::body_text))]
fn put_bytes(alloc: Global, body: &[u8], text: &mut Vec<u8>) -> Result<(), Memory>
    ensures { OnOk result (text.new.items ≡ text.old.items ++ body_text body.now) }
{
    if body.is_empty() {
        return Ok(());
    }
    let digits = hex::encode(alloc, body)?;
    put(text, b" ")?;
    put(text, digits.as_bytes())
}

#[tactic(auto, unfolding(crate::specs::Texts::body_line))]
fn put_body(alloc: Global, message: &Message, text: &mut Vec<u8>) -> Result<(), Memory>
    ensures { OnOk result (text.new.items ≡ text.old.items ++ body_line message.now) }
{
    put(text, b"body")?;
    put_bytes(alloc, message.body.as_slice(), text)?;
    put(text, b"\n")
}

/// The line of the message that an op took, where it took one.
fn put_taken(alloc: Global, done: &Done, text: &mut Vec<u8>) -> Result<(), Memory>
    ensures { OnOk result (text.new.items ≡ text.old.items ++
        option_map_or body_line (took done.now) []) }
{
    match done {
        Done::Took(message) => put_body(alloc, message, text),
        Done::Sent { .. } | Done::Put(_) => Ok(()),
    }
}

fn put_ops(alloc: Global, ops: &[Done], text: &mut Vec<u8>) -> Result<(), Memory>
    ensures { OnOk result (text.new.items ≡ text.old.items ++
        flat_map body_line (filter_map took ops.now)) }
{
    for done in ops {
        put_taken(alloc, done, text)?;
    }
    Ok(())
}

fn put_bodies(alloc: Global, taken: &Taken, text: &mut Vec<u8>) -> Result<(), Memory>
    ensures { OnOk result (text.new.items ≡ text.old.items ++
        flat_map body_line (messages_of taken.now)) }
{
    match taken {
        Taken::Nothing => Ok(()),
        Taken::One(message) => put_body(alloc, message, text),
        Taken::ByOps(committed) => put_ops(alloc, committed.done(), text),
    }
}

/// Appends what is told of a call. After a refusal `out` is as before.
#[tactic(auto, unfolding(crate::specs::Texts::told_text))]
pub(crate) fn print_told(
    alloc: Global,
    told: &Told,
    hosts: &[Identity],
    out: &mut Vec<u8>,
) -> Result<(), Memory>
    ensures ok { OnOk result (out.new.items ≡ out.old.items ++ told_text hosts.now told.now) }
    ensures err { OnErr result (out.new.items ≡ out.old.items) }
{
    let mut text = Vec::new(alloc);
    put_said(alloc, &told.said, hosts, &mut text)?;
    put_bodies(alloc, &told.taken, &mut text)?;
    out.extend_from_slice(&text)?;
    Ok(())
}
