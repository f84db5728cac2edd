//! One line of a script that is asked of a world, and its reply.
ghost use Rattle.std.specs.Prelude.{◌≡◌, Err, List, Some};
ghost use Rattle.mqb_world.specs.Seats.{IsHeldOn};
ghost use Rattle.mqb_network.specs.Runs.{Move};
ghost use Rattle.mqb_world.specs.mqb_runs.Hosts.{hosts};
ghost use Rattle.mqb_script.specs.Formed.{IsFormed};
ghost use Rattle.mqb_script.specs.declared.grammar.Grammar.TheVariants.{Pair};
ghost use Rattle.mqb_transcript.specs.Texts.{printed};
ghost use Rattle.mqb_world.specs.Standing.{Stands};
ghost use Rattle.mqb_replay.specs.Devices.{devices};
ghost use Rattle.mqb_replay.specs.Faults.{WriteCause};
ghost use Rattle.mqb_replay.specs.Plays.{Turned, Wrote};

use crate::faults::ReplayFault;
use mqb_base::Identity;
use mqb_commands::write_all;
use mqb_outside::{Medium, Power, Sink};
use mqb_script::Event;
use mqb_transcript::{Reply, print_reply};
use mqb_world::World;
use std::alloc::Global;

/// Writes the line of a reply.
fn write_reply<K: Sink>(
    alloc: Global,
    number: u32,
    reply: &Reply,
    hosts: &[Identity],
    out: &mut K,
) -> Result<(), ReplayFault>
    ensures wrote { Wrote (K.taken out.old) (K.taken out.new)
        (printed hosts.now (Some number) reply.now) result }
    ensures cause { WriteCause (K.write_faults out.old) (K.write_faults out.new) result }
{
    let mut text = Vec::new(alloc);
    print_reply(alloc, Some(number), reply, hosts, &mut text)?;
    write_all(out, &text)?;
    Ok(())
}

/// Makes the event of one line happen and writes its reply.
pub(crate) fn turn<K: Sink, P: Power, M: Medium>(
    alloc: Global,
    world: &mut World,
    line: &(u32, Event),
    known: &[Identity],
    out: &mut K,
    first: &mut P,
    second: &mut P,
    medium: &mut M,
) -> Result<(), ReplayFault>
    requires formed { IsFormed Pair line.now.1 }
    requires known { known.now ≡ hosts }
    requires stands { (ms : List Move) × Stands world.old (M.strings medium.old) ms }
    requires alpha { IsHeldOn (P.view first.old) world.old.alpha }
    requires beta { IsHeldOn (P.view second.old) world.old.beta }
    ensures turned { Turned line.now world.old world.new
        (devices (M.strings medium.old) (P.view first.old) (P.view second.old))
        (devices (M.strings medium.new) (P.view first.new) (P.view second.new))
        (K.taken out.old) (K.taken out.new) result }
    ensures cause { WriteCause (K.write_faults out.old) (K.write_faults out.new) result }
{
    let reply = world.apply(&line.1, first, second, medium)?;
    write_reply(alloc, line.0, &reply, known, out)
}
