//! The line of a connection.
ghost use Rattle.std.specs.Prelude.{◌≡◌, ◌++◌, Err, IfOk, OnOk, codes};
ghost use Rattle.std.specs.Fmt.{decimal};
ghost use Rattle.mqb_connections.specs.Visits.{end_line, said_line};
ghost use Rattle.mqb_transcript.specs.Printing.{wrote};

use mqb_base::Memory;
use mqb_commands::put_end;
use mqb_serving::ConnFault;
use mqb_transcript::Printer;
use std::alloc::Global;

#[tactic(auto, using(mqb_transcript::specs::lemmas::Wrote::writing), unfolding(crate::specs::Visits::said_line))]
fn put_said(
    printer: &mut Printer<'_>,
    number: u32,
    end: Result<(), ConnFault>,
) -> Result<(), Memory>
    ensures { OnOk result (printer.new ≡ wrote printer.old (said_line number end)) }
{
    printer.put(b"connection ")?;
    printer.number(number)?;
    printer.put(b": ")?;
    put_end(printer, end)?;
    printer.put(b"\n")
}

/// The line of a connection: its number and how it ended. There is none where the disk
/// failed or memory ran out.
#[tactic(auto, using(mqb_transcript::specs::lemmas::Wrote::text_wrote), unfolding(crate::specs::Visits::end_line))]
pub(crate) fn end_line(
    alloc: Global,
    number: u32,
    end: Result<(), ConnFault>,
) -> Result<Vec<u8>, Memory>
    ensures { IfOk result (λ text. text.items ≡ end_line number end) }
{
    if matches!(end, Err(ConnFault::DiskFault | ConnFault::Memory)) {
        return Ok(Vec::new(alloc));
    }
    let mut printer = Printer::new(alloc, &[]);
    put_said(&mut printer, number, end)?;
    let text = Vec::from_slice(alloc, printer.text())?;
    Ok(text)
}
