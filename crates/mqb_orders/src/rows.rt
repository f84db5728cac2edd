ghost use Rattle.std.specs.Prelude.{◌≡◌, ◌<◌, ◌&&◌, length, map, Contains};
ghost use Rattle.std.specs.List.{list_any};
ghost use Rattle.mqb_orders.specs.KeptLists.{numbers};
ghost use Rattle.mqb_orders.specs.Rows.{row_of, leads_to, has_unacknowledged};
ghost use Rattle.mqb_orders.specs.Rows.{is_open, acknowledged};

use crate::kept::KeptList;
use mqb_base::{Guid, QueueName, SequenceId};

/// The incoming row of one source and one destination name: its present sequence, and the last
/// number of it that was decided.
#[derive(Clone, Debug, PartialEq, Eq, Drop)]
pub struct InRow {
    pub source: Guid,
    pub destination: QueueName,
    pub sequence: SequenceId,
    pub last: u32,
}

/// The outgoing row of one stream: how many messages were committed, the greatest number that was
/// offered and the greatest that was acknowledged, and the messages that are kept.
#[derive(Debug, Drop)]
pub struct OutRow {
    pub peer: u32,
    pub destination: QueueName,
    pub sequence: SequenceId,
    pub committed: u32,
    pub offered: u32,
    pub acked: u32,
    pub kept: KeptList,
}

impl OutRow {
    ghost use Rattle.mqb_orders.specs.Rows.{link_before, next_kept};

    /// The number that stands before a kept one that is not acknowledged: the kept one before it,
    /// or the acknowledged one, which is 0 at first.
    pub fn link_before(&self, n: u32) -> u32
        requires kept { Contains (numbers self.now.kept.items) n }
        requires unacknowledged { self.now.acked < n }
        ensures { result ≡ link_before self.now.acked self.now.kept.items n }
    {
        match self.kept.count_up_to(n - 1) {
            0 => self.acked,
            count => self.acked.max(self.kept.get(count - 1).number),
        }
    }

    /// The next kept number above `after`, where there is one.
    pub fn next_kept(&self, after: u32) -> Option<u32>
        ensures { result ≡ next_kept self.now.kept.items after }
    {
        let count = self.kept.count_up_to(after);
        if count == self.kept.len() {
            return None;
        }
        Some(self.kept.get(count).number)
    }

    /// Whether a number that is kept was not acknowledged.
    pub fn has_unacknowledged(&self) -> bool
        ensures { result ≡ has_unacknowledged (row_of self.now) }
    {
        match self.kept.len() {
            0 => false,
            count => self.kept.get(count - 1).number > self.acked,
        }
    }

    /// Takes it that everything up to a number was acknowledged.
    pub fn acknowledge(&mut self, number: u32)
        ensures row { row_of self.new ≡ acknowledged number (row_of self.old) }
        ensures room { self.new.kept.room ≡ self.old.kept.room }
    {
        self.acked = self.acked.max(number);
        self.kept.release(self.acked);
    }
}

/// Whether no earlier row than the one at `k` leads where it leads and has a number that was not
/// acknowledged. Only of an open row messages are sent, so that a sequence begins once the one
/// before it was delivered.
pub fn is_open(rows: &[OutRow], k: u32) -> bool
    requires { k < length rows.now }
    ensures { result ≡ is_open (map row_of rows.now) k }
{
    let row = &rows[k as usize];
    !has_unacknowledged_to(&rows[..k as usize], row.peer, &row.destination)
}

/// Whether some row that leads to a destination has a number that was not acknowledged.
fn has_unacknowledged_to(rows: &[OutRow], peer: u32, destination: &QueueName) -> bool
    ensures { result ≡ list_any
        (λ r. leads_to peer destination.now (row_of r) && has_unacknowledged (row_of r)) rows.now }
{
    rows.iter().any(|row| leads_to(row, peer, destination) && row.has_unacknowledged())
}

fn leads_to(row: &OutRow, peer: u32, destination: &QueueName) -> bool
    ensures { result ≡ leads_to peer destination.now (row_of row.now) }
{
    row.peer == peer && row.destination == *destination
}
