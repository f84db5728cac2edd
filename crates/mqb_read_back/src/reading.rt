ghost use Rattle.std.specs.Prelude.{◌≡◌, length, nat_lt};
ghost use Rattle.std.specs.List.{list_all};
ghost use Rattle.mqb_entries.specs.Fields.{u32_at};
ghost use Rattle.mqb_model.specs.declared.limits.TheConstants.{MAX_NUMBER, MAX_ORDINAL, MAX_ROLL};
ghost use Rattle.mqb_read_back.specs.Answers.{Gives, IsReadBack, Joins};
ghost use Rattle.mqb_snapshot.specs.Parts.{tested};
ghost use Rattle.mqb_snapshot.specs.Reading.{counters_joined, is_next, is_next_ordinal};
ghost use Rattle.mqb_snapshot.specs.Reading.{parts_joined, state_of};

use crate::faults::BackFault;
use crate::fields::{u32_field, within_field};
use crate::parts::ReadParts;
use crate::peers::identity_field;
use crate::rows::last_ordinal;
use mqb_contents::{Change, Contents, Counters};
use mqb_fields::Cursor;
use mqb_model::{MAX_NUMBER, MAX_ROLL};
use std::alloc::Global;

fn are_below(numbers: &[u32], next: u32) -> bool
    ensures { result ≡ list_all (λ n. nat_lt n next) numbers.now }
{
    numbers.iter().all(|number| *number < next)
}

fn is_next(numbers: &[u32], next: u32) -> bool
    ensures { result ≡ is_next numbers.now next }
{
    1 <= next && next <= MAX_NUMBER + 1 && are_below(numbers, next)
}

/// A next number above all numbers.
fn next_number_field(numbers: &[u32], cursor: &mut Cursor<'_>) -> Result<u32, BackFault>
    ensures { Gives (tested (is_next numbers.now) u32_at) cursor.old cursor.new result }
{
    let at = cursor.at();
    let next = u32_field(cursor)?;
    if is_next(numbers, next) {
        Ok(next)
    } else {
        Err(BackFault::Bad { at })
    }
}

/// A next ordinal above the last row's. Each number of four bytes is in its limits.
fn next_ordinal_field(contents: &Contents, cursor: &mut Cursor<'_>) -> Result<u32, BackFault>
    ensures { Gives (tested (is_next_ordinal contents.now.lists) u32_at)
        cursor.old cursor.new result }
{
    let at = cursor.at();
    let next = u32_field(cursor)?;
    if last_ordinal(contents) < next {
        Ok(next)
    } else {
        Err(BackFault::Bad { at })
    }
}

impl ReadParts {
    /// The next number, the next ordinal, and the count at which a sequence is full.
    #[tactic(auto, unfolding(mqb_snapshot::specs::Reading::counters_joined))]
    fn counters(&mut self, cursor: &mut Cursor<'_>) -> Result<(), BackFault>
        ensures { Joins counters_joined self.old cursor.old self.new cursor.new result }
    {
        let counters = Counters {
            next_number: next_number_field(self.numbers(), cursor)?,
            next_ordinal: next_ordinal_field(&self.contents, cursor)?,
            roll: within_field(cursor, 1, MAX_ROLL)?,
            next_express: self.contents.next_express(),
        };
        self.change(Change::Count(counters))?;
        Ok(())
    }

    /// The parts behind the identity.
    #[tactic(auto, unfolding(mqb_snapshot::specs::Reading::parts_joined))]
    fn parts(&mut self, cursor: &mut Cursor<'_>) -> Result<(), BackFault>
        requires peers { length self.old.state.peers ≡ 0 }
        requires queues { length self.old.state.places.queues ≡ 0 }
        ensures { Joins parts_joined self.old cursor.old self.new cursor.new result }
    {
        self.peers(cursor)?;
        self.queues(cursor)?;
        self.places(cursor)?;
        self.waiting_for_all(cursor)?;
        self.rows(cursor)?;
        self.sources(cursor)?;
        self.counters(cursor)
    }
}

/// What a store stands for that was spelled as these bytes, all of them, or the first field that
/// stands in no such bytes.
#[tactic(auto, unfolding(mqb_snapshot::specs::Reading::state_of))]
pub fn read_back(alloc: Global, bytes: &[u8]) -> Result<Contents, BackFault>
    ensures { IsReadBack (state_of bytes.now) result }
{
    let mut cursor = Cursor::new(bytes);
    let identity = identity_field(alloc, &mut cursor)?;
    let mut parts = ReadParts::new(alloc, identity);
    match parts.parts(&mut cursor) {
        Ok(()) if cursor.rest().is_empty() => Ok(parts.into_contents()),
        Ok(()) => {
            parts.close();
            Err(BackFault::Bad { at: cursor.at() })
        }
        Err(fault) => {
            parts.close();
            Err(fault)
        }
    }
}
