//! What is said of faults and of the ends of connections.
ghost use Rattle.std.specs.Prelude.{◌≡◌, ◌++◌, OnErr, OnOk, codes};
ghost use Rattle.mqb_commands.specs.Texts.{bad_store_text, bad_text, end_text, fault_text};
ghost use Rattle.mqb_commands.specs.Texts.{kind_text, line_kind_text, peer_text};
ghost use Rattle.mqb_commands.specs.Texts.{script_fault_text, shown_fault_text};
ghost use Rattle.mqb_transcript.specs.Printing.{wrote};
ghost use Rattle.mqb_transcript.specs.Texts.{cause_text};

use crate::status::Status;
use mqb_base::{Cause, Memory};
use mqb_fields::{HeadFault, HeadKind};
use mqb_forms::LineKind;
use mqb_serving::{ConnFault, PeerFault};
use mqb_transcript::Printer;
use std::alloc::Global;

#[tactic(auto, unfolding(mqb_transcript::specs::Texts::cause_text))]
fn cause_text(cause: Cause) -> &'static [u8]
    ensures { result.now ≡ cause_text cause }
{
    match cause {
        Cause::Early => b"early",
        Cause::BadAck => b"badack",
        Cause::Refused => b"refused",
        Cause::Repeated => b"repeated",
        Cause::Foreign => b"foreign",
    }
}

#[tactic(auto, unfolding(crate::specs::Texts::kind_text))]
fn kind_text(kind: HeadKind) -> &'static [u8]
    ensures { result.now ≡ kind_text kind }
{
    match kind {
        HeadKind::Short => b"short",
        HeadKind::Version => b"version",
        HeadKind::Debug => b"debug",
        HeadKind::Signature => b"signature",
        HeadKind::Size => b"size",
        HeadKind::Kind => b"kind",
        HeadKind::Secured => b"secured",
        HeadKind::Name => b"name",
        HeadKind::Label => b"label",
        HeadKind::Class => b"class",
        HeadKind::Sizes => b"sizes",
    }
}

#[tactic(auto, unfolding(crate::specs::Texts::line_kind_text))]
fn line_kind_text(kind: LineKind) -> &'static [u8]
    ensures { result.now ≡ line_kind_text kind }
{
    match kind {
        LineKind::Byte => b"byte",
        LineKind::Word => b"word",
        LineKind::Count => b"count",
        LineKind::Value => b"value",
    }
}

#[tactic(auto, using(mqb_transcript::specs::lemmas::Wrote::writing), unfolding(crate::specs::Texts::bad_text))]
fn put_bad(printer: &mut Printer<'_>, place: u64, fault: HeadFault) -> Result<(), Memory>
    ensures { OnOk result (printer.new ≡ wrote printer.old (bad_text place fault)) }
{
    printer.put(b"bad ")?;
    printer.count(place)?;
    printer.put(b" ")?;
    printer.count(fault.at as u64)?;
    printer.put(b" ")?;
    printer.put(kind_text(fault.kind))
}

#[tactic(auto, using(mqb_transcript::specs::lemmas::Wrote::writing))]
fn put_session(printer: &mut Printer<'_>, cause: Cause) -> Result<(), Memory>
    ensures { OnOk result (printer.new ≡ wrote printer.old (codes "session " ++ cause_text cause)) }
{
    printer.put(b"session ")?;
    printer.put(cause_text(cause))
}

/// What a peer did that ended a connection badly.
#[tactic(auto, unfolding(crate::specs::Texts::peer_text))]
fn put_peer_fault(printer: &mut Printer<'_>, fault: PeerFault) -> Result<(), Memory>
    ensures { OnOk result (printer.new ≡ wrote printer.old (peer_text fault)) }
{
    match fault {
        PeerFault::PeerClosed => printer.put(b"closed"),
        PeerFault::Bad { place, fault } => put_bad(printer, place, fault),
        PeerFault::Closed(cause) => put_session(printer, cause),
        PeerFault::Spent => printer.put(b"spent"),
        PeerFault::TooMuch => printer.put(b"toomuch"),
    }
}

/// How a connection ended. It puts nothing for one under which the disk failed or memory ran out.
#[tactic(auto, using(mqb_transcript::specs::lemmas::Wrote::writing), unfolding(crate::specs::Texts::end_text))]
pub fn put_end(printer: &mut Printer<'_>, end: Result<(), ConnFault>) -> Result<(), Memory>
    ensures { OnOk result (printer.new ≡ wrote printer.old (end_text end)) }
{
    match end {
        Ok(()) => printer.put(b"ended"),
        Err(ConnFault::Peer(fault)) => put_peer_fault(printer, fault),
        Err(ConnFault::ReadFault | ConnFault::WriteFault) => printer.put(b"netfault"),
        Err(ConnFault::DiskFault | ConnFault::Memory) => Ok(()),
    }
}

#[tactic(auto, using(mqb_transcript::specs::lemmas::Wrote::writing), unfolding(crate::specs::Texts::script_fault_text))]
fn put_script_fault(printer: &mut Printer<'_>, line: u32, kind: LineKind) -> Result<(), Memory>
    ensures { OnOk result (printer.new ≡ wrote printer.old (script_fault_text line kind)) }
{
    printer.put(b"fault: script ")?;
    printer.number(line)?;
    printer.put(b" ")?;
    printer.put(line_kind_text(kind))?;
    printer.put(b"\n")
}

#[tactic(auto, using(mqb_transcript::specs::lemmas::Wrote::writing), unfolding(crate::specs::Texts::bad_store_text))]
fn put_bad_store(printer: &mut Printer<'_>, at: u64) -> Result<(), Memory>
    ensures { OnOk result (printer.new ≡ wrote printer.old (bad_store_text at)) }
{
    printer.put(b"fault: badstore ")?;
    printer.count(at)?;
    printer.put(b"\n")
}

#[tactic(auto, using(mqb_transcript::specs::lemmas::Wrote::writing), unfolding(crate::specs::Texts::shown_fault_text))]
fn put_shown_fault(printer: &mut Printer<'_>, fault: PeerFault) -> Result<(), Memory>
    ensures { OnOk result (printer.new ≡ wrote printer.old (shown_fault_text fault)) }
{
    printer.put(b"fault: ")?;
    put_peer_fault(printer, fault)?;
    printer.put(b"\n")
}

/// The fault line of an end, where it has one.
#[tactic(auto, using(mqb_transcript::specs::lemmas::Wrote::writing), unfolding(crate::specs::Texts::fault_text))]
fn put_fault(printer: &mut Printer<'_>, end: Status) -> Result<(), Memory>
    ensures { OnOk result (printer.new ≡ wrote printer.old (fault_text end)) }
{
    match end {
        Status::Usage => printer.put(b"fault: usage\n"),
        Status::Script { line, kind } => put_script_fault(printer, line, kind),
        Status::TooLong => printer.put(b"fault: toolong\n"),
        Status::TooManyLines => printer.put(b"fault: toomanylines\n"),
        Status::ReadFault => printer.put(b"fault: readfault\n"),
        Status::DiskFault => printer.put(b"fault: diskfault\n"),
        Status::NetFault => printer.put(b"fault: netfault\n"),
        Status::BadStore { at } => put_bad_store(printer, at),
        Status::NotEmpty => printer.put(b"fault: notempty\n"),
        Status::Peer(fault) => put_shown_fault(printer, fault),
        Status::NetFull => printer.put(b"fault: netfull\n"),
        Status::Done | Status::WriteFault | Status::Memory | Status::Refused => Ok(()),
    }
}

/// Appends the fault line of an end, where it has one. After a refusal the text is as before.
#[tactic(auto, using(mqb_transcript::specs::lemmas::Wrote::text_wrote))]
pub fn append_fault(alloc: Global, end: Status, text: &mut Vec<u8>) -> Result<(), Memory>
    ensures ok { OnOk result (text.new.items ≡ text.old.items ++ fault_text end) }
    ensures err { OnErr result (text.new.items ≡ text.old.items) }
{
    let mut printer = Printer::new(alloc, &[]);
    put_fault(&mut printer, end)?;
    text.extend_from_slice(printer.text())?;
    Ok(())
}
