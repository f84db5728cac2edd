//! The replay of a script that is made, for its ledger.
ghost use Rattle.std.specs.List.{AllByRecursion};
ghost use Rattle.std.specs.Prelude.{[], ◌++◌, ◌≡◌, ◌≤◌, Err, OnOk, count_by};
ghost use Rattle.mqb_world.specs.Seats.{IsHeldOn};
ghost use Rattle.mqb_outside.specs.Faults.{Rose};
ghost use Rattle.mqb_script.specs.Formed.{IsFormed};
ghost use Rattle.mqb_script.specs.declared.grammar.Grammar.TheVariants.{Pair};
ghost use Rattle.mqb_transcript.specs.Printing.{wrote};
ghost use Rattle.mqb_world.specs.Standing.{Stands};
ghost use Rattle.mqb_replay.specs.Completeness.{CompletesTrial};
ghost use Rattle.mqb_replay.specs.Devices.{devices};
ghost use Rattle.mqb_replay.specs.Faults.{WriteCause};
ghost use Rattle.mqb_replay.specs.Plays.{Wrote};
ghost use Rattle.mqb_replay.specs.Replays.{Begins};
ghost use Rattle.mqb_replay.specs.Trials.{EndsTrial, Tries, TriesLines, counted_text, is_counted};
ghost use Rattle.mqb_replay.specs.Trials.{trial_text, word_of};

use crate::fault_lines::tell;
use crate::faults::ReplayFault;
use crate::lent::{LentSource, Nowhere};
use crate::plays::play_lines;
use mqb_base::{Line, Memory};
use mqb_commands::write_all;
use mqb_outside::{Medium, Power, Sink};
use mqb_script::{Event, made_scripts_are_scripts, read_script};
use mqb_transcript::{Printer, make_script};
use mqb_world::{World, runs_keep_guarantees};
use std::alloc::Global;

/// Which lines of a ledger are counted.
#[derive(Clone, Copy, Debug)]
enum Tally {
    Committed,
    Put,
    Refused,
    Expired,
}

#[tactic(auto, unfolding(crate::specs::Trials::word_of))]
fn word(tally: Tally) -> &'static [u8]
    ensures { result.now ≡ word_of tally }
{
    match tally {
        Tally::Committed => b" committed ",
        Tally::Put => b" put ",
        Tally::Refused => b" refused ",
        Tally::Expired => b" expired ",
    }
}

fn is_counted(tally: Tally, line: &Line) -> bool
    ensures { result ≡ is_counted tally line.now }
{
    match tally {
        Tally::Committed => matches!(line, Line::Committed { .. }),
        Tally::Put => matches!(line, Line::Put { .. }),
        Tally::Refused => matches!(line, Line::Refused { .. }),
        Tally::Expired => matches!(line, Line::Expired { .. }),
    }
}

/// How many lines of a ledger are counted.
fn count(tally: Tally, ledger: &[Line]) -> u64
    ensures { result ≡ count_by (is_counted tally) ledger.now }
{
    let mut count = 0;
    for line in ledger {
        if is_counted(tally, line) {
            count += 1;
        }
    }
    count
}

#[tactic(auto, using(mqb_transcript::specs::lemmas::Wrote::writing), unfolding(crate::specs::Trials::counted_text))]
fn put_count(printer: &mut Printer<'_>, tally: Tally, ledger: &[Line]) -> Result<(), Memory>
    ensures { OnOk result (printer.new ≡ wrote printer.old (counted_text tally ledger.now)) }
{
    printer.put(word(tally))?;
    printer.count(count(tally, ledger))
}

#[tactic(auto, using(mqb_transcript::specs::lemmas::Wrote::writing), unfolding(crate::specs::Trials::trial_text))]
fn put_trial(printer: &mut Printer<'_>, lines: usize, ledger: &[Line]) -> Result<(), Memory>
    ensures { OnOk result (printer.new ≡ wrote printer.old (trial_text lines ledger.now)) }
{
    printer.put(b"lines ")?;
    printer.count(lines as u64)?;
    put_count(printer, Tally::Committed, ledger)?;
    put_count(printer, Tally::Put, ledger)?;
    put_count(printer, Tally::Refused, ledger)?;
    put_count(printer, Tally::Expired, ledger)?;
    printer.put(b"\n")
}

/// Appends the line of a trial.
#[tactic(auto, using(mqb_transcript::specs::lemmas::Wrote::text_wrote))]
fn append_trial(
    alloc: Global,
    lines: usize,
    ledger: &[Line],
    text: &mut Vec<u8>,
) -> Result<(), Memory>
    ensures { OnOk result (text.new.items ≡ text.old.items ++ trial_text lines ledger.now) }
{
    let mut printer = Printer::new(alloc, &[]);
    put_trial(&mut printer, lines, ledger)?;
    text.extend_from_slice(printer.text())?;
    Ok(())
}

/// Writes the line of a trial.
fn write_trial<K: Sink>(
    alloc: Global,
    lines: usize,
    ledger: &[Line],
    out: &mut K,
) -> Result<(), ReplayFault>
    ensures wrote { Wrote (K.taken out.old) (K.taken out.new) (trial_text lines ledger.now) result }
    ensures cause { WriteCause (K.write_faults out.old) (K.write_faults out.new) result }
{
    let mut text = Vec::new(alloc);
    append_trial(alloc, lines, ledger, &mut text)?;
    write_all(out, &text)?;
    Ok(())
}

/// Plays a script in a world in which nothing happened yet, and writes the line of its ledger.
fn try_in<K: Sink, P: Power, M: Medium>(
    alloc: Global,
    world: &mut World,
    script: &[(u32, Event)],
    out: &mut K,
    first: &mut P,
    second: &mut P,
    medium: &mut M,
) -> Result<(), ReplayFault>
    requires formed { AllByRecursion (λ line. IsFormed Pair line.1) script.now }
    requires stands { Stands world.old (M.strings medium.old) [] }
    requires alpha { IsHeldOn (P.view first.old) world.old.alpha }
    requires beta { IsHeldOn (P.view second.old) world.old.beta }
    ensures tried { TriesLines script.now
        (devices (M.strings medium.old) (P.view first.old) (P.view second.old))
        (devices (M.strings medium.new) (P.view first.new) (P.view second.new))
        (K.taken out.old) (K.taken out.new) result }
    ensures cause { WriteCause (K.write_faults out.old) (K.write_faults out.new) result }
{
    runs_keep_guarantees();
    play_lines(alloc, world, script, &mut Nowhere, first, second, medium)?;
    write_trial(alloc, script.len(), world.ledger(), out)
}

/// Tries a script over two new managers.
fn try_lines<K: Sink, P: Power, M: Medium>(
    alloc: Global,
    script: &[(u32, Event)],
    out: &mut K,
    first: &mut P,
    second: &mut P,
    medium: &mut M,
) -> Result<(), ReplayFault>
    requires formed { AllByRecursion (λ line. IsFormed Pair line.1) script.now }
    requires empty { M.strings medium.old ≡ [] }
    ensures tried { Begins (TriesLines script.now)
        (devices (M.strings medium.old) (P.view first.old) (P.view second.old))
        (devices (M.strings medium.new) (P.view first.new) (P.view second.new))
        (K.taken out.old) (K.taken out.new) result }
    ensures cause { WriteCause (K.write_faults out.old) (K.write_faults out.new) result }
{
    let mut world = World::new(alloc, first, second)?;
    let tried = try_in(alloc, &mut world, script, out, first, second, medium);
    world.close();
    tried
}

/// Makes the script of `n` orders and tries it.
fn make_and_try<K: Sink, P: Power, M: Medium>(
    alloc: Global,
    n: u32,
    out: &mut K,
    first: &mut P,
    second: &mut P,
    medium: &mut M,
) -> Result<(), ReplayFault>
    requires least { 1 ≤ n }
    requires most { n ≤ 10000 }
    requires empty { M.strings medium.old ≡ [] }
    ensures ends { EndsTrial n
        (devices (M.strings medium.old) (P.view first.old) (P.view second.old))
        (devices (M.strings medium.new) (P.view first.new) (P.view second.new))
        (K.taken out.old) (K.taken out.new) result }
    ensures cause { WriteCause (K.write_faults out.old) (K.write_faults out.new) result }
{
    made_scripts_are_scripts();
    let mut text = Vec::new(alloc);
    make_script(alloc, n, &mut text)?;
    let script = read_script(alloc, &mut LentSource::new(&text))?;
    try_lines(alloc, script.events(), out, first, second, medium)
}

/// Replays the script of `n` orders over two managers on these disks, and writes how often its
/// ledger says what. The medium is empty.
pub fn trial<K: Sink, P: Power, M: Medium>(
    alloc: Global,
    n: u32,
    out: &mut K,
    first: &mut P,
    second: &mut P,
    medium: &mut M,
) -> Result<(), ReplayFault>
    requires least { 1 ≤ n }
    requires most { n ≤ 10000 }
    requires empty { M.strings medium.old ≡ [] }
    ensures tried { Tries n
        (devices (M.strings medium.old) (P.view first.old) (P.view second.old))
        (devices (M.strings medium.new) (P.view first.new) (P.view second.new))
        (K.taken out.old) (K.taken out.new) result }
    // Where its packets fit the medium it comes to its end, where no device fails that must not.
    ensures complete { CompletesTrial n
        (devices (M.strings medium.old) (P.view first.old) (P.view second.old))
        (K.write_faults out.old) (K.write_faults out.new) result }
    ensures write { result ≡ Err ReplayFault.WriteFault
        → Rose (K.write_faults out.old) (K.write_faults out.new) }
{
    let end = make_and_try(alloc, n, out, first, second, medium);
    tell(alloc, end, out)
}
