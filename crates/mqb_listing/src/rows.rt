ghost use Rattle.std.specs.List.{flat_map};
ghost use Rattle.std.specs.Prelude.{◌≡◌, OnOk};
ghost use Rattle.mqb_listing.specs.Lines.{in_line, out_line, route_text};
ghost use Rattle.mqb_orders.specs.Rows.{row_of};
ghost use Rattle.mqb_transcript.specs.Printing.{wrote};

use crate::places::begin;
use mqb_base::{Memory, QueueName};
use mqb_orders::{InRow, OutRow};
use mqb_transcript::Printer;

/// Where a row leads, and its numbers.
#[tactic(auto, using(mqb_transcript::specs::lemmas::Wrote::writing), unfolding(crate::specs::Lines::route_text))]
fn put_route(
    printer: &mut Printer<'_>,
    destination: &QueueName,
    numbers: &[u32],
) -> Result<(), Memory>
    ensures { OnOk result (printer.new ≡
        wrote printer.old (route_text destination.now numbers.now)) }
{
    printer.put(b" ")?;
    printer.name(destination)?;
    printer.numbers(numbers)
}

fn put_out(printer: &mut Printer<'_>, host: &[u8], row: &OutRow) -> Result<(), Memory>
    ensures { OnOk result (printer.new ≡ wrote printer.old (out_line host.now (row_of row.now))) }
{
    begin(printer, host, b"out ")?;
    printer.number(row.sequence.ordinal)?;
    put_route(
        printer,
        &row.destination,
        &[row.committed, row.offered, row.acked],
    )?;
    printer.put(b"\n")
}

/// The lines of outgoing rows.
#[tactic(auto, using(mqb_transcript::specs::lemmas::Wrote::writing))]
pub(crate) fn put_outs(
    printer: &mut Printer<'_>,
    host: &[u8],
    rows: &[OutRow],
) -> Result<(), Memory>
    ensures { OnOk result (printer.new ≡ wrote printer.old
        (flat_map (λ r. out_line host.now (row_of r)) rows.now)) }
{
    for row in rows {
        put_out(printer, host, row)?;
    }
    Ok(())
}

fn put_in(printer: &mut Printer<'_>, host: &[u8], row: &InRow) -> Result<(), Memory>
    ensures { OnOk result (printer.new ≡ wrote printer.old
        (in_line printer.old.hosts host.now row.now)) }
{
    begin(printer, host, b"in ")?;
    printer.manager(&row.source)?;
    put_route(printer, &row.destination, &[row.sequence.ordinal, row.last])?;
    printer.put(b"\n")
}

/// The lines of incoming rows.
#[tactic(auto, using(mqb_transcript::specs::lemmas::Wrote::writing))]
pub(crate) fn put_ins(printer: &mut Printer<'_>, host: &[u8], rows: &[InRow]) -> Result<(), Memory>
    ensures { OnOk result (printer.new ≡ wrote printer.old
        (flat_map (in_line printer.old.hosts host.now) rows.now)) }
{
    for row in rows {
        put_in(printer, host, row)?;
    }
    Ok(())
}
