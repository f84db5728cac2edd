//! Outgoing rows with the messages that they keep, and incoming rows.
ghost use Rattle.std.specs.Prelude.{◌≡◌, ◌<◌, IfOk, IsTrue, OnOk, is_none, length};
ghost use Rattle.std.specs.Prelude.{nat_lt, position};
ghost use Rattle.mqb_contents.specs.Rows.{begun_row, with_marks};
ghost use Rattle.mqb_model.specs.declared.limits.TheConstants.{MAX_ROLL};
ghost use Rattle.mqb_model.specs.state.Rows.{is_row_of};
ghost use Rattle.mqb_entries.specs.Fields.{u32_at};
ghost use Rattle.mqb_orders.specs.KeptLists.{Rises};
ghost use Rattle.mqb_snapshot.specs.Fields.{destination_at};
ghost use Rattle.mqb_read_back.specs.Answers.{Gives, GivesAs, Joins};
ghost use Rattle.mqb_snapshot.specs.Parts.{list_joined, tested};
ghost use Rattle.mqb_snapshot.specs.Reading.{head_at, kept_joined, last_number, last_ordinal};
ghost use Rattle.mqb_snapshot.specs.Reading.{may_keep, row_joined, source_at, source_joined};
ghost use Rattle.mqb_snapshot.specs.Reading.{with_kept, with_row};

use crate::faults::BackFault;
use crate::fields::{destination_field, guid_field, transactional_flag, u32_field, within_field};
use crate::parts::ReadParts;
use mqb_base::{Guid, Memory, QueueName, SequenceId};
use mqb_contents::{Change, Contents, NewRow, RowMarks};
use mqb_fields::Cursor;
use mqb_model::MAX_ROLL;
use mqb_orders::{InRow, Kept, KeptList};
use mqb_packet::Headers;
use std::alloc::Global;

/// The ordinal of the last row, or 0.
pub(crate) fn last_ordinal(contents: &Contents) -> u32
    ensures { result ≡ last_ordinal contents.now.lists }
{
    match contents.outs().len() as u32 {
        0 => 0,
        count => contents.out(count - 1).sequence.ordinal,
    }
}

/// The last number of kept messages, or 0.
fn last_number(list: &KeptList) -> u32
    ensures { result ≡ last_number list.now.items }
{
    match list.len() {
        0 => 0,
        count => list.get(count - 1).number,
    }
}

fn peer_index_field(contents: &Contents, cursor: &mut Cursor<'_>) -> Result<u32, BackFault>
    ensures { Gives (tested (λ k. nat_lt k (length contents.now.lists.peers)) u32_at)
        cursor.old cursor.new result }
{
    let at = cursor.at();
    let peer = u32_field(cursor)?;
    if (peer as usize) < contents.peers().len() {
        Ok(peer)
    } else {
        Err(BackFault::Bad { at })
    }
}

fn ordinal_field(contents: &Contents, cursor: &mut Cursor<'_>) -> Result<u32, BackFault>
    ensures { Gives (tested (nat_lt (last_ordinal contents.now.lists)) u32_at)
        cursor.old cursor.new result }
{
    let at = cursor.at();
    let ordinal = u32_field(cursor)?;
    if last_ordinal(contents) < ordinal {
        Ok(ordinal)
    } else {
        Err(BackFault::Bad { at })
    }
}

/// A row that follows the others, and how far it has come.
#[tactic(auto, unfolding(mqb_snapshot::specs::Reading::head_at))]
fn head_field(
    alloc: Global,
    contents: &Contents,
    cursor: &mut Cursor<'_>,
) -> Result<(NewRow, RowMarks), BackFault>
    ensures { GivesAs
        (λ head. with_marks head.1 (begun_row head.0.peer head.0.destination head.0.sequence))
        (head_at contents.now.lists) cursor.old cursor.new result }
{
    let peer = peer_index_field(contents, cursor)?;
    let destination = destination_field(alloc, cursor)?;
    let sequence = SequenceId {
        ordinal: ordinal_field(contents, cursor)?,
        stamp: u32_field(cursor)?,
    };
    let committed = within_field(cursor, 0, MAX_ROLL)?;
    let offered = within_field(cursor, 0, committed)?;
    let marks = RowMarks {
        committed,
        offered,
        acked: within_field(cursor, 0, offered)?,
    };
    Ok((NewRow::new(alloc, peer, destination, sequence), marks))
}

fn may_keep(contents: &Contents, row: u32, number: u32) -> bool
    requires { row < length contents.now.lists.outs }
    ensures { result ≡ may_keep contents.now.lists row number }
{
    let keeper = contents.out(row);
    last_number(&keeper.kept) < number && number <= keeper.committed
}

/// A number that the row at an index can keep next.
fn kept_number_field(
    contents: &Contents,
    cursor: &mut Cursor<'_>,
    row: u32,
) -> Result<u32, BackFault>
    requires { row < length contents.now.lists.outs }
    ensures read { Gives (tested (may_keep contents.now.lists row) u32_at)
        cursor.old cursor.new result }
    ensures may { IfOk result (λ number. IsTrue (may_keep contents.now.lists row number)) }
{
    let at = cursor.at();
    let number = u32_field(cursor)?;
    if may_keep(contents, row, number) {
        Ok(number)
    } else {
        Err(BackFault::Bad { at })
    }
}

/// Outgoing rows.
impl ReadParts {
    /// A row joins the others.
    fn add_row(&mut self, row: NewRow, marks: RowMarks) -> Result<(), Memory>
        ensures { OnOk result (self.new ≡ record self.old {
          state = with_row self.old.state
              (with_marks marks (begun_row row.peer row.destination row.sequence));
        }) }
    {
        let at = self.contents.outs().len() as u32;
        self.change(Change::AddRow(row))?;
        self.change(Change::Mark { row: at, marks })
    }

    /// A row keeps a message more.
    fn keep(&mut self, row: u32, kept: Kept) -> Result<(), Memory>
        requires { IsTrue (may_keep self.old.state row kept.number) }
        ensures { OnOk result (self.new ≡ record self.old {
          state = with_kept self.old.state row kept;
        }) }
    {
        let index = self.contents.out(row).kept.len();
        self.change(Change::InsertKept { row, index, kept })
    }

    /// A message is kept by the row at an index.
    #[tactic(auto, unfolding(mqb_snapshot::specs::Reading::kept_joined))]
    fn kept(&mut self, cursor: &mut Cursor<'_>, row: u32) -> Result<(), BackFault>
        requires { row < length self.old.state.outs }
        ensures joined { Joins (kept_joined row) self.old cursor.old self.new cursor.new result }
        ensures rows { OnOk result (length self.new.state.outs ≡ length self.old.state.outs) }
    {
        let number = kept_number_field(&self.contents, cursor, row)?;
        transactional_flag(cursor)?;
        let message = self.own_field(cursor, true, Headers::TxAndSession)?;
        self.keep(row, Kept { number, message })?;
        Ok(())
    }

    /// The messages that the row at an index keeps, behind their count.
    fn kept_list(&mut self, cursor: &mut Cursor<'_>, row: u32) -> Result<(), BackFault>
        requires { row < length self.old.state.outs }
        ensures { Joins (list_joined (kept_joined row)) self.old cursor.old
            self.new cursor.new result }
    {
        let count = u32_field(cursor)?;
        for _ in 0..count {
            self.kept(cursor, row)?;
        }
        Ok(())
    }

    /// A row, and the messages that it keeps.
    #[tactic(auto, unfolding(mqb_snapshot::specs::Reading::row_joined))]
    fn row(&mut self, cursor: &mut Cursor<'_>) -> Result<(), BackFault>
        ensures { Joins row_joined self.old cursor.old self.new cursor.new result }
    {
        let row = self.contents.outs().len() as u32;
        let head = head_field(self.alloc, &self.contents, cursor)?;
        self.add_row(head.0, head.1)?;
        self.kept_list(cursor, row)
    }

    /// All rows, behind their count.
    pub(crate) fn rows(&mut self, cursor: &mut Cursor<'_>) -> Result<(), BackFault>
        ensures { Joins (list_joined row_joined) self.old cursor.old self.new cursor.new result }
    {
        let count = u32_field(cursor)?;
        for _ in 0..count {
            self.row(cursor)?;
        }
        Ok(())
    }
}

/// A destination that no other row of a source has.
fn heard_field(
    alloc: Global,
    contents: &Contents,
    cursor: &mut Cursor<'_>,
    source: Guid,
) -> Result<QueueName, BackFault>
    ensures { Gives
        (tested (λ name. is_none (position (is_row_of source name) contents.now.lists.ins))
        destination_at) cursor.old cursor.new result }
{
    let at = cursor.at();
    let destination = destination_field(alloc, cursor)?;
    if contents.in_index(source, &destination).is_some() {
        return Err(BackFault::Bad { at });
    }
    Ok(destination)
}

/// An incoming row of a source and a destination that no other one has.
#[tactic(auto, unfolding(mqb_snapshot::specs::Reading::source_at))]
fn source_field(
    alloc: Global,
    contents: &Contents,
    cursor: &mut Cursor<'_>,
) -> Result<InRow, BackFault>
    ensures { Gives (source_at contents.now.lists) cursor.old cursor.new result }
{
    let source = guid_field(cursor)?;
    Ok(InRow {
        source,
        destination: heard_field(alloc, contents, cursor, source)?,
        sequence: SequenceId {
            ordinal: u32_field(cursor)?,
            stamp: u32_field(cursor)?,
        },
        last: u32_field(cursor)?,
    })
}

/// Incoming rows.
impl ReadParts {
    #[tactic(auto, unfolding(mqb_snapshot::specs::Reading::source_joined))]
    fn source(&mut self, cursor: &mut Cursor<'_>) -> Result<(), BackFault>
        ensures { Joins source_joined self.old cursor.old self.new cursor.new result }
    {
        let row = source_field(self.alloc, &self.contents, cursor)?;
        self.change(Change::AddIn(row))?;
        Ok(())
    }

    /// All incoming rows, behind their count.
    pub(crate) fn sources(&mut self, cursor: &mut Cursor<'_>) -> Result<(), BackFault>
        ensures { Joins (list_joined source_joined) self.old cursor.old self.new cursor.new result }
    {
        let count = u32_field(cursor)?;
        for _ in 0..count {
            self.source(cursor)?;
        }
        Ok(())
    }
}
