ghost use Rattle.std.specs.Prelude.{◌≡◌, []};
ghost use Rattle.mqb_contents.specs.Rows.{IsBegun, begun_row};
ghost use Rattle.mqb_contents.specs.Seen.{room_of};
ghost use Rattle.mqb_orders.specs.Rows.{row_of};

use mqb_base::{QueueName, SequenceId};
use mqb_orders::{KeptList, OutRow};
use std::alloc::Global;
use std::marker::Model;

/// An outgoing row in which nothing was committed, which is to join the others or was the last of
/// them. Contracts see its sequence, and how many messages it can keep without memory.
#[derive(Debug, Drop)]
pub struct NewRow {
    row: OutRow,
}

impl Model for NewRow {
    ghost use Rattle.mqb_contents.specs.Rows.{EmptyRow, IsBegun};
    ghost use Rattle.mqb_contents.specs.Seen.{room_of};
    ghost use Rattle.mqb_orders.specs.Rows.{row_of};

    ghost Value = { EmptyRow };

    ghost view = { λ n. record {
      peer = n.row.peer;
      destination = n.row.destination;
      sequence = n.row.sequence;
      room = room_of n.row;
    } };

    ghost invariant = { λ n. IsBegun (row_of n.row) };
}

impl NewRow {
    /// A row without room.
    pub fn new(alloc: Global, peer: u32, destination: QueueName, sequence: SequenceId) -> NewRow
        ensures { result ≡ record {
          peer = peer;
          destination = destination;
          sequence = sequence;
          room = 0;
        } }
    {
        NewRow {
            row: OutRow {
                peer,
                destination,
                sequence,
                committed: 0,
                offered: 0,
                acked: 0,
                kept: KeptList::new(alloc),
            },
        }
    }

    pub(crate) fn peer(&self) -> u32
        ensures { result ≡ self.now.peer }
    {
        self.row.peer
    }

    pub(crate) fn destination(&self) -> &QueueName
        ensures { result.now ≡ self.now.destination }
    {
        &self.row.destination
    }

    pub(crate) fn from_row(row: OutRow) -> NewRow
        requires { IsBegun (row_of row) }
        ensures { result ≡ record {
          peer = row.peer;
          destination = row.destination;
          sequence = row.sequence;
          room = room_of row;
        } }
    {
        NewRow { row }
    }

    pub(crate) fn into_row(self) -> OutRow
        ensures row { row_of result ≡ begun_row self.peer self.destination self.sequence }
        ensures room { room_of result ≡ self.room }
    {
        self.row
    }
}
