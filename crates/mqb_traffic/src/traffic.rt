ghost use Rattle.std.specs.Prelude.{[], ◌+◌, ◌++◌, ◌<◌, ◌^◌, ◌≡◌, ◌≤◌, IfOk, OnOk, is_some, length};
ghost use Rattle.std.specs.Prelude.{nat_lt, option_map, replicate};
ghost use Rattle.mqb_model.specs.Lists.{with_changed};
ghost use Rattle.mqb_model.specs.managers.Manager.{Manager};
ghost use Rattle.mqb_network.specs.Changes as network;
ghost use Rattle.mqb_network.specs.Network.{is_connected, is_underway};
ghost use Rattle.mqb_queue.specs.Places.{numbered};
ghost use Rattle.mqb_script.specs.Managers.{other};
ghost use Rattle.mqb_script.specs.declared.managers.Which.{Which};
ghost use Rattle.mqb_traffic.specs.Networks.{index_of, marked, network_with, note_of};
ghost use Rattle.mqb_traffic.specs.Networks.{notes_of, parted_where};

use crate::notes::{Link, Note};
use mqb_base::{Line, Memory};
use mqb_script::Which;
use std::alloc::Global;
use std::marker::Model;

/// The connection that stands between two managers, a note for each packet that was ever
/// sent, and the ledger.
#[derive(Debug, Drop)]
pub struct Traffic {
    link: Option<Link>,
    connected: u32,
    notes: Vec<Note>,
    ledger: Vec<Line>,
}

impl Model for Traffic {
    ghost use Rattle.mqb_traffic.specs.States.{TrafficState};

    ghost Value = { TrafficState };

    ghost view = { λ t. record {
      link = t.link;
      connected = t.connected;
      notes = t.notes.items;
      ledger = t.ledger.items;
    } };
}

fn copy_of(line: &Line) -> Result<Line, Memory>
    ensures { IfOk result (λ copy. copy ≡ line.now) }
{
    Ok(line.clone()?)
}

/// Adds copies of lines at the end.
fn add_copies(ledger: &mut Vec<Line>, lines: &[Line]) -> Result<(), Memory>
    ensures { OnOk result (ledger.new.items ≡ ledger.old.items ++ lines.now) }
{
    for line in lines {
        ledger.push(copy_of(line)?)?;
    }
    Ok(())
}

/// Adds so many notes at the end.
fn add_notes(notes: &mut Vec<Note>, note: Note, count: u32) -> Result<(), Memory>
    requires { length notes.old.items + count < 2 ^ 63 }
    ensures { OnOk result (notes.new.items ≡ notes.old.items ++ replicate count note) }
{
    let length = notes.len();
    notes.resize(length + count as usize, note)?;
    Ok(())
}

/// Marks the note at an index, where there is one.
fn mark(notes: &mut [Note], index: usize) -> bool
    ensures there { result ≡ nat_lt index (length notes.old) }
    ensures marked { notes.new ≡ with_changed marked notes.old index }
{
    if index >= notes.len() {
        return false;
    }
    notes[index].dropped = true;
    true
}

impl Traffic {
    /// There was none yet.
    pub fn new(alloc: Global) -> Traffic
        ensures { result ≡ record { link = None; connected = 0; notes = []; ledger = [] } }
    {
        Traffic {
            link: None,
            connected: 0,
            notes: Vec::new(alloc),
            ledger: Vec::new(alloc),
        }
    }

    /// The lines of all records, in order.
    pub fn ledger(&self) -> &[Line]
        ensures { result.now ≡ self.now.ledger }
    {
        self.ledger.as_slice()
    }

    /// How many packets were ever sent.
    pub fn count(&self) -> u32
        requires { length self.now.notes < 2 ^ 32 }
        ensures { result ≡ length self.now.notes }
    {
        self.notes.len() as u32
    }

    /// Whether a connection stands, which both managers have then.
    pub fn is_linked(&self) -> bool
        ensures linked { result ≡ is_some self.now.link }
        ensures connected { (alpha beta : Manager) (which : Which) →
            result ≡ is_connected (network_with alpha beta self.now) (index_of which) }
    {
        self.link.is_some()
    }

    /// A connection begins, which this manager asked for.
    pub fn begin(&mut self, initiator: Which)
        requires none { self.old.link ≡ None }
        requires number { self.old.connected + 1 < 2 ^ 32 }
        ensures { (alpha beta : Manager) → network_with alpha beta self.new ≡ network.begun
            (index_of initiator) (index_of (other initiator)) (network_with alpha beta self.old) }
    {
        let number = self.connected + 1;
        self.connected = number;
        self.link = Some(Link { number, initiator });
    }

    /// The connection ends, where one stands. Both managers are to forget it then.
    pub fn end(&mut self) -> bool
        ensures stood { result ≡ is_some self.old.link }
        ensures ended { (alpha beta : Manager) (which : Which) →
            network.ended (index_of which) (network_with alpha beta self.old) ≡
            network_with (parted_where result alpha) (parted_where result beta) self.new }
    {
        let stood = self.link.is_some();
        self.link = None;
        stood
    }

    /// Notes that a manager sent so many packets at a moment in seconds, in the
    /// connection that stands.
    pub fn note_sent(&mut self, sender: Which, now: u32, count: u32) -> Result<(), Memory>
        requires { length self.old.notes + count < 2 ^ 63 }
        ensures { OnOk result ((alpha beta : Manager) → network_with alpha beta self.new ≡
            network.noted (index_of sender) now count (network_with alpha beta self.old)) }
    {
        let Some(link) = self.link else {
            return Ok(());
        };
        let note = Note {
            sender,
            connection: link.number,
            moment: now,
            dropped: false,
        };
        add_notes(&mut self.notes, note, count)
    }

    /// The note of a packet, by its number from 1.
    pub fn note_at(&self, k: u32) -> Option<Note>
        requires { 1 ≤ k }
        ensures { option_map note_of result ≡ numbered (notes_of self.now) k }
    {
        self.notes.get((k - 1) as usize).copied()
    }

    /// Whether a packet can still be heard: its connection stands, and it was not dropped.
    pub fn is_underway(&self, note: &Note) -> bool
        ensures { (alpha beta : Manager) → result ≡
            is_underway (network_with alpha beta self.now) (note_of note.now) }
    {
        match &self.link {
            None => false,
            Some(link) => !note.dropped && link.number == note.connection,
        }
    }

    /// A packet goes nowhere any more. Answers whether there is one of this number.
    pub fn drop_packet(&mut self, k: u32) -> bool
        requires { 1 ≤ k }
        ensures there { result ≡ is_some (numbered (notes_of self.old) k) }
        ensures dropped { (alpha beta : Manager) → network_with alpha beta self.new ≡
            network.dropped k (network_with alpha beta self.old) }
    {
        mark(&mut self.notes, (k - 1) as usize)
    }

    /// The lines of a record join the ledger.
    pub fn add_lines(&mut self, lines: &[Line]) -> Result<(), Memory>
        ensures { OnOk result ((alpha beta : Manager) → network_with alpha beta self.new ≡
            network.with_lines lines.now (network_with alpha beta self.old)) }
    {
        add_copies(&mut self.ledger, lines)
    }
}
