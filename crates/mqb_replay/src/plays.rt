//! The lines of a script, one after another, and what is held at the end.
ghost use Rattle.std.specs.List.{AllByRecursion};
ghost use Rattle.std.specs.Prelude.{[], ◌++◌, ◌≡◌, OnOk};
ghost use Rattle.mqb_world.specs.Seats.{IsHeldOn, seated};
ghost use Rattle.mqb_world.specs.mqb_runs.Texts.{end_lines, manager_lines};
ghost use Rattle.mqb_script.specs.Formed.{IsFormed};
ghost use Rattle.mqb_script.specs.declared.grammar.Grammar.TheVariants.{Pair};
ghost use Rattle.mqb_world.specs.Standing.{Stands};
ghost use Rattle.mqb_world.specs.Worlds.{network_of, seat_at};
ghost use Rattle.mqb_replay.specs.Devices.{devices};
ghost use Rattle.mqb_replay.specs.Faults.{WriteCause};
ghost use Rattle.mqb_replay.specs.Plays.{Wrote};
ghost use Rattle.mqb_replay.specs.Replays.{Begins, PlaysLines, PlaysWhole};

use crate::faults::ReplayFault;
use crate::turns::turn;
use mqb_base::Memory;
use mqb_commands::write_all;
use mqb_outside::{Medium, Power, Sink};
use mqb_script::{Event, Which};
use mqb_world::{World, hosts, runs_keep_guarantees};
use std::alloc::Global;

/// Plays all lines of a script in a world in which nothing happened yet.
pub(crate) fn play_lines<K: Sink, P: Power, M: Medium>(
    alloc: Global,
    world: &mut World,
    script: &[(u32, Event)],
    out: &mut K,
    first: &mut P,
    second: &mut P,
    medium: &mut M,
) -> Result<(), ReplayFault>
    requires formed { AllByRecursion (λ line. IsFormed Pair line.1) script.now }
    requires stands { Stands world.old (M.strings medium.old) [] }
    requires alpha { IsHeldOn (P.view first.old) world.old.alpha }
    requires beta { IsHeldOn (P.view second.old) world.old.beta }
    ensures played { PlaysLines script.now world.new
        (devices (M.strings medium.old) (P.view first.old) (P.view second.old))
        (devices (M.strings medium.new) (P.view first.new) (P.view second.new))
        (K.taken out.old) (K.taken out.new) result }
    ensures cause { WriteCause (K.write_faults out.old) (K.write_faults out.new) result }
{
    runs_keep_guarantees();
    let hosts = hosts(alloc)?;
    for line in script {
        turn(alloc, world, line, &hosts, out, first, second, medium)?;
    }
    Ok(())
}

/// Appends the lines of a manager.
fn put_manager(world: &World, which: Which, text: &mut Vec<u8>) -> Result<(), Memory>
    ensures { OnOk result (text.new.items ≡
        text.old.items ++ manager_lines which (seated (seat_at world.now which))) }
{
    match world.manager(which) {
        Some(manager) => manager.state().print(text),
        None => {
            text.extend_from_slice(which.host())?;
            text.extend_from_slice(b" down\n")?;
            Ok(())
        }
    }
}

/// Appends the lines of both managers.
fn put_end(world: &World, text: &mut Vec<u8>) -> Result<(), Memory>
    ensures { OnOk result (text.new.items ≡ text.old.items ++ end_lines (network_of world.now)) }
{
    text.extend_from_slice(b"end\n")?;
    put_manager(world, Which::Alpha, text)?;
    put_manager(world, Which::Beta, text)
}

/// Writes the last lines of a transcript.
fn write_end<K: Sink>(alloc: Global, world: &World, out: &mut K) -> Result<(), ReplayFault>
    ensures wrote { Wrote (K.taken out.old) (K.taken out.new) (end_lines (network_of world.now))
        result }
    ensures cause { WriteCause (K.write_faults out.old) (K.write_faults out.new) result }
{
    let mut text = Vec::new(alloc);
    put_end(world, &mut text)?;
    write_all(out, &text)?;
    Ok(())
}

/// Plays a script in a world in which nothing happened yet: a line for each event, and then
/// what is held at the end.
fn play_in<K: Sink, P: Power, M: Medium>(
    alloc: Global,
    world: &mut World,
    script: &[(u32, Event)],
    out: &mut K,
    first: &mut P,
    second: &mut P,
    medium: &mut M,
) -> Result<(), ReplayFault>
    requires formed { AllByRecursion (λ line. IsFormed Pair line.1) script.now }
    requires stands { Stands world.old (M.strings medium.old) [] }
    requires alpha { IsHeldOn (P.view first.old) world.old.alpha }
    requires beta { IsHeldOn (P.view second.old) world.old.beta }
    ensures played { PlaysWhole script.now
        (devices (M.strings medium.old) (P.view first.old) (P.view second.old))
        (devices (M.strings medium.new) (P.view first.new) (P.view second.new))
        (K.taken out.old) (K.taken out.new) result }
    ensures cause { WriteCause (K.write_faults out.old) (K.write_faults out.new) result }
{
    runs_keep_guarantees();
    play_lines(alloc, world, script, out, first, second, medium)?;
    write_end(alloc, world, out)
}

/// Plays a script whole, over two new managers.
pub(crate) fn play<K: Sink, P: Power, M: Medium>(
    alloc: Global,
    script: &[(u32, Event)],
    out: &mut K,
    first: &mut P,
    second: &mut P,
    medium: &mut M,
) -> Result<(), ReplayFault>
    requires formed { AllByRecursion (λ line. IsFormed Pair line.1) script.now }
    requires empty { M.strings medium.old ≡ [] }
    ensures played { Begins (PlaysWhole script.now)
        (devices (M.strings medium.old) (P.view first.old) (P.view second.old))
        (devices (M.strings medium.new) (P.view first.new) (P.view second.new))
        (K.taken out.old) (K.taken out.new) result }
    ensures cause { WriteCause (K.write_faults out.old) (K.write_faults out.new) result }
{
    let mut world = World::new(alloc, first, second)?;
    let played = play_in(alloc, &mut world, script, out, first, second, medium);
    world.close();
    played
}
