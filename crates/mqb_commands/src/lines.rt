//! The line of a packet.
ghost use Rattle.std.specs.Prelude.{◌≡◌, ◌++◌, IfOk, OnOk, length};
ghost use Rattle.mqb_packet.specs.Parts.{seen_packet, seen_user};
ghost use Rattle.mqb_transcript.specs.Printing.{wrote};
ghost use Rattle.mqb_commands.specs.Lines.{delivery_text, line_text, packet_text, user_text};

use mqb_base::Memory;
use mqb_packet::{PacketView, UserView};
use mqb_transcript::Printer;
use std::alloc::Global;

#[tactic(auto, unfolding(crate::specs::Lines::delivery_text))]
pub(crate) fn delivery_text(transaction: bool, recoverable: bool) -> &'static [u8]
    ensures { result.now ≡ delivery_text transaction recoverable }
{
    if transaction {
        b"transactional"
    } else if recoverable {
        b"recoverable"
    } else {
        b"express"
    }
}

#[tactic(auto, using(mqb_transcript::specs::lemmas::Wrote::writing), unfolding(crate::specs::Lines::user_text))]
fn put_user(printer: &mut Printer<'_>, user: &UserView<'_>) -> Result<(), Memory>
    ensures { OnOk result (printer.new ≡ wrote printer.old (user_text (seen_user user.now))) }
{
    printer.classed(b"user ", user.props.class)?;
    printer.spaced_number(user.user.number)?;
    printer.put(b" ")?;
    printer.put(delivery_text(user.user.transaction, user.user.recoverable))
}

#[tactic(auto, unfolding(crate::specs::Lines::packet_text))]
fn put_packet(printer: &mut Printer<'_>, packet: &PacketView<'_>) -> Result<(), Memory>
    ensures { OnOk result (printer.new ≡ wrote printer.old (packet_text (seen_packet packet.now))) }
{
    match packet {
        PacketView::User(user) => put_user(printer, user),
        PacketView::Establish(_) => printer.put(b"establish"),
        PacketView::Parameters(_) => printer.put(b"parameters"),
        PacketView::Ack(_) => printer.put(b"ack"),
    }
}

#[tactic(auto, using(mqb_transcript::specs::lemmas::Wrote::writing), unfolding(crate::specs::Lines::line_text))]
fn put_line(
    printer: &mut Printer<'_>,
    place: u64,
    size: usize,
    packet: &PacketView<'_>,
) -> Result<(), Memory>
    ensures { OnOk result (printer.new ≡
        wrote printer.old (line_text place size (seen_packet packet.now))) }
{
    printer.count(place)?;
    printer.put(b" ")?;
    printer.count(size as u64)?;
    printer.put(b" ")?;
    put_packet(printer, packet)?;
    printer.put(b"\n")
}

/// The line of a packet of a size at a place of the stream.
#[tactic(auto, using(mqb_transcript::specs::lemmas::Wrote::text_wrote))]
pub(crate) fn line_of(
    alloc: Global,
    place: u64,
    size: usize,
    packet: &PacketView<'_>,
) -> Result<Vec<u8>, Memory>
    ensures { IfOk result (λ text. text.items ≡ line_text place size (seen_packet packet.now)) }
{
    let mut printer = Printer::new(alloc, &[]);
    put_line(&mut printer, place, size, packet)?;
    let text = Vec::from_slice(alloc, printer.text())?;
    Ok(text)
}
