ghost use Rattle.std.specs.List.{flat_map};
ghost use Rattle.std.specs.Option.{option_map_or};
ghost use Rattle.std.specs.Prelude.{◌≡◌, ◌<◌, ◌≤◌, ◌++◌, [], length, slice_get, OnOk};
ghost use Rattle.mqb_listing.specs.Lines.{held_text, ids_text, machine_lines};
ghost use Rattle.mqb_listing.specs.Lines.{place_line, queue_lines};
ghost use Rattle.mqb_base.specs.declared.roomed.TheConstants.{MAX_MEMBERS};
ghost use Rattle.mqb_queue.specs.Places.{lists_at};
ghost use Rattle.mqb_transcript.specs.Printing.{wrote};
ghost use Rattle.mqb_transcript.specs.Texts.{spaced};

use mqb_base::{EntryPlace, Lane, Memory, Message};
use mqb_deque::SplitSlice;
use mqb_queue::Queues;
use mqb_transcript::Printer;

#[tactic(auto, using(mqb_transcript::specs::lemmas::Wrote::writing), unfolding(crate::specs::Lines::ids_text))]
fn put_ids(printer: &mut Printer<'_>, messages: &SplitSlice<'_, Message>) -> Result<(), Memory>
    ensures { OnOk result (printer.new ≡
        wrote printer.old (ids_text printer.old.hosts messages.now)) }
{
    for index in 0..messages.len() {
        let message = messages.at(index);
        printer.about(b" ", &message.id)?;
    }
    Ok(())
}

/// Begins a line.
#[tactic(auto, using(mqb_transcript::specs::lemmas::Wrote::writing))]
pub(crate) fn begin(printer: &mut Printer<'_>, host: &[u8], word: &[u8]) -> Result<(), Memory>
    ensures { OnOk result (printer.new ≡ wrote printer.old (host.now ++ spaced word.now)) }
{
    printer.put(host)?;
    printer.put(b" ")?;
    printer.put(word)
}

#[tactic(auto, using(mqb_transcript::specs::lemmas::Wrote::writing), unfolding(crate::specs::Lines::held_text))]
fn put_held(
    printer: &mut Printer<'_>,
    durable: &SplitSlice<'_, Message>,
    express: &SplitSlice<'_, Message>,
) -> Result<(), Memory>
    ensures { OnOk result (printer.new ≡ wrote printer.old (held_text printer.old.hosts
        (record { durable = durable.now; express = express.now }))) }
{
    put_ids(printer, durable)?;
    put_ids(printer, express)
}

/// The line of a place under a word and a name, where the place is there.
fn put_place(
    printer: &mut Printer<'_>,
    host: &[u8],
    word: &[u8],
    name: &[u8],
    queues: &Queues,
    at: EntryPlace,
) -> Result<(), Memory>
    ensures { OnOk result (printer.new ≡ wrote printer.old (option_map_or
        (place_line printer.old.hosts host.now (word.now ++ name.now))
        (lists_at queues.now.lists at) [])) }
{
    let Some(durable) = queues.messages_at(at, Lane::Durable) else {
        return Ok(());
    };
    let Some(express) = queues.messages_at(at, Lane::Express) else {
        return Ok(());
    };
    begin(printer, host, word)?;
    printer.put(name)?;
    put_held(printer, &durable, &express)?;
    printer.put(b"\n")
}

/// The lines of the queue at a place in the list.
fn put_queue(printer: &mut Printer<'_>, host: &[u8], queues: &Queues, k: u32) -> Result<(), Memory>
    requires there { k < length queues.now.lists.queues }
    requires few { length queues.now.lists.queues ≤ MAX_MEMBERS }
    ensures { OnOk result (printer.new ≡ wrote printer.old (option_map_or
        (queue_lines printer.old.hosts host.now) (slice_get queues.now.lists.queues k) [])) }
{
    let plan = queues.plan(k);
    let name = plan.name.as_slice();
    put_place(
        printer,
        host,
        b"queue ",
        name,
        queues,
        EntryPlace::Queue(k + 1),
    )?;
    if !plan.journal {
        return Ok(());
    }
    put_place(
        printer,
        host,
        b"journalof ",
        name,
        queues,
        EntryPlace::JournalOf(k + 1),
    )
}

#[tactic(auto, using(mqb_transcript::specs::lemmas::Wrote::writing))]
pub(crate) fn put_queues(
    printer: &mut Printer<'_>,
    host: &[u8],
    queues: &Queues,
) -> Result<(), Memory>
    ensures { OnOk result (printer.new ≡ wrote printer.old (flat_map
        (queue_lines printer.old.hosts host.now) queues.now.lists.queues)) }
{
    for k in 0..queues.count() {
        put_queue(printer, host, queues, k)?;
    }
    Ok(())
}

/// The lines of the places that every manager has.
#[tactic(auto, using(mqb_transcript::specs::lemmas::Wrote::writing), unfolding(crate::specs::Lines::machine_lines))]
pub(crate) fn put_machine(
    printer: &mut Printer<'_>,
    host: &[u8],
    queues: &Queues,
) -> Result<(), Memory>
    ensures { OnOk result (printer.new ≡ wrote printer.old
        (machine_lines printer.old.hosts host.now queues.now.lists)) }
{
    put_place(printer, host, b"dead", b"", queues, EntryPlace::Dead)?;
    put_place(
        printer,
        host,
        b"deadxact",
        b"",
        queues,
        EntryPlace::DeadXact,
    )?;
    put_place(printer, host, b"journal", b"", queues, EntryPlace::Journal)
}
