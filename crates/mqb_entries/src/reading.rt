ghost use Rattle.std.specs.Prelude.{◌≡◌, IfOk};
ghost use Rattle.mqb_fields.specs.Reading.{Reads, ReadsAs, number_at};
ghost use Rattle.mqb_entries.specs.Fields.{field};
ghost use Rattle.mqb_entries.specs.Entries.{acknowledged_at, arrived_at, commit_at, entry_of, few_at, fields_at, identity_at, kind_at, numbers_at, part_at, place_at, plain_at, purged_at, queue_at, taken_at};
ghost use Rattle.mqb_entries.specs.Lists.{count_at};
ghost use Rattle.mqb_entries.specs.declared.limits.TheConstants.{MAX_FEW, MAX_ROLL};
ghost use Rattle.mqb_entries.specs.SpelledEntries.{Fits, spelled};

use crate::entry::{ArrivedPart, Entry, IdentityView, QueueView};
use crate::faults::EntryFault;
use crate::fields::{
    address_field, flag_field, guid_field, id_field, name_field, packet_field, public_field,
    u8_field, u32_field,
};
use crate::kinds::EntryKind;
use crate::limits::{MAX_FEW, MAX_ROLL};
use crate::lists::{MemberList, Numbers};
use crate::members::ReadMember;
use mqb_base::EntryPlace;
use mqb_fields::Cursor;

#[tactic(auto, unfolding(crate::specs::Entries::identity_at))]
fn identity<'a>(cursor: &mut Cursor<'a>) -> Result<IdentityView<'a>, EntryFault>
    ensures { Reads identity_at cursor.old cursor.new result }
{
    let host = name_field(cursor)?;
    let guid = guid_field(cursor)?;
    let address = address_field(cursor)?;
    Ok(IdentityView {
        host,
        guid,
        address,
    })
}

#[tactic(auto, unfolding(crate::specs::Entries::queue_at))]
fn queue<'a>(cursor: &mut Cursor<'a>) -> Result<QueueView<'a>, EntryFault>
    ensures { Reads queue_at cursor.old cursor.new result }
{
    let name = name_field(cursor)?;
    let number = u32_field(cursor)?;
    let public = public_field(cursor)?;
    let transactional = flag_field(cursor)?;
    let quota = u32_field(cursor)?;
    let journal = flag_field(cursor)?;
    Ok(QueueView {
        name,
        number,
        public,
        transactional,
        quota,
        journal,
    })
}

/// A count of 1 to `MAX_FEW`.
#[tactic(auto, unfolding(crate::specs::Lists::count_at))]
fn few(cursor: &mut Cursor<'_>) -> Result<u16, EntryFault>
    ensures { Reads (count_at 1 1 MAX_FEW) cursor.old cursor.new result }
{
    let at = cursor.at();
    match u8_field(cursor)? {
        count @ 1..=MAX_FEW => Ok(u16::from(count)),
        _ => Err(EntryFault { at }),
    }
}

/// 1 to `MAX_FEW` members behind their count.
fn few_members<'a, M: ReadMember<'a>>(
    cursor: &mut Cursor<'a>,
) -> Result<MemberList<'a, M>, EntryFault>
    ensures { Reads (few_at M.member_at) cursor.old cursor.new result }
{
    let count = few(cursor)?;
    MemberList::read(cursor, count)
}

#[tactic(auto, unfolding(crate::specs::Entries::numbers_at))]
fn numbers<'a>(cursor: &mut Cursor<'a>) -> Result<Numbers<'a>, EntryFault>
    ensures { Reads numbers_at cursor.old cursor.new result }
{
    let count = cursor.u16()?;
    Numbers::read(cursor, count)
}

/// A count of 1 to `MAX_ROLL`, in four bytes.
#[tactic(auto, unfolding(crate::specs::Lists::count_at))]
fn full_count(cursor: &mut Cursor<'_>) -> Result<u32, EntryFault>
    ensures { Reads (count_at 4 1 MAX_ROLL) cursor.old cursor.new result }
{
    let at = cursor.at();
    match u32_field(cursor)? {
        count @ 1..=MAX_ROLL => Ok(count),
        _ => Err(EntryFault { at }),
    }
}

/// A queue's number in a place that begins at `at`.
fn queue_number(cursor: &mut Cursor<'_>, at: usize) -> Result<u32, EntryFault>
    ensures { Reads (λ r. field (record r { at = at }) (number_at 4 r)) cursor.old cursor.new
        result }
{
    match cursor.u32() {
        Ok(number) => Ok(number),
        Err(_) => Err(EntryFault { at }),
    }
}

#[tactic(auto, unfolding(crate::specs::Entries::place_at))]
fn place(cursor: &mut Cursor<'_>) -> Result<EntryPlace, EntryFault>
    ensures { Reads place_at cursor.old cursor.new result }
{
    let at = cursor.at();
    match u8_field(cursor)? {
        1 => Ok(EntryPlace::Queue(queue_number(cursor, at)?)),
        2 => Ok(EntryPlace::JournalOf(queue_number(cursor, at)?)),
        3 => Ok(EntryPlace::Dead),
        4 => Ok(EntryPlace::DeadXact),
        5 => Ok(EntryPlace::Journal),
        _ => Err(EntryFault { at }),
    }
}

fn acknowledged<'a>(cursor: &mut Cursor<'_>) -> Result<ArrivedPart<'a>, EntryFault>
    ensures { Reads acknowledged_at cursor.old cursor.new result }
{
    let ordinal = u32_field(cursor)?;
    let number = u32_field(cursor)?;
    Ok(ArrivedPart::OrderAcknowledged { ordinal, number })
}

#[tactic(auto, unfolding(crate::specs::Entries::part_at))]
fn part<'a>(cursor: &mut Cursor<'a>) -> Result<ArrivedPart<'a>, EntryFault>
    ensures { Reads part_at cursor.old cursor.new result }
{
    let at = cursor.at();
    match u8_field(cursor)? {
        0 => Ok(ArrivedPart::Nothing),
        1 => Ok(ArrivedPart::Decided(packet_field(cursor)?)),
        2 => Ok(ArrivedPart::Stored(packet_field(cursor)?)),
        3 => acknowledged(cursor),
        4 => Ok(ArrivedPart::Final(packet_field(cursor)?)),
        _ => Err(EntryFault { at }),
    }
}

#[tactic(auto, unfolding(crate::specs::Entries::kind_at))]
fn kind(cursor: &mut Cursor<'_>) -> Result<EntryKind, EntryFault>
    ensures { Reads kind_at cursor.old cursor.new result }
{
    let at = cursor.at();
    EntryKind::of_code(u8_field(cursor)?).ok_or(EntryFault { at })
}

fn commit<'a>(cursor: &mut Cursor<'a>) -> Result<Entry<'a>, EntryFault>
    ensures { Reads commit_at cursor.old cursor.new result }
{
    let now = u32_field(cursor)?;
    let ops = few_members(cursor)?;
    Ok(Entry::Commit { now, ops })
}

fn plain<'a>(cursor: &mut Cursor<'a>) -> Result<Entry<'a>, EntryFault>
    ensures { Reads plain_at cursor.old cursor.new result }
{
    let now = u32_field(cursor)?;
    let packet = packet_field(cursor)?;
    Ok(Entry::Plain { now, packet })
}

fn arrived<'a>(cursor: &mut Cursor<'a>) -> Result<Entry<'a>, EntryFault>
    ensures { Reads arrived_at cursor.old cursor.new result }
{
    let now = u32_field(cursor)?;
    let released = numbers(cursor)?;
    let part = part(cursor)?;
    Ok(Entry::Arrived {
        now,
        released,
        part,
    })
}

fn taken<'a>(cursor: &mut Cursor<'a>) -> Result<Entry<'a>, EntryFault>
    ensures { Reads taken_at cursor.old cursor.new result }
{
    let now = u32_field(cursor)?;
    let place = place(cursor)?;
    let id = id_field(cursor)?;
    Ok(Entry::Taken { now, place, id })
}

fn purged<'a>(cursor: &mut Cursor<'a>) -> Result<Entry<'a>, EntryFault>
    ensures { Reads purged_at cursor.old cursor.new result }
{
    let now = u32_field(cursor)?;
    let place = place(cursor)?;
    Ok(Entry::Purged { now, place })
}

#[tactic(auto, unfolding(crate::specs::Entries::fields_at))]
fn fields<'a>(kind: EntryKind, cursor: &mut Cursor<'a>) -> Result<Entry<'a>, EntryFault>
    ensures { Reads (fields_at kind) cursor.old cursor.new result }
{
    match kind {
        EntryKind::Identity => Ok(Entry::Identity(identity(cursor)?)),
        EntryKind::Peer => Ok(Entry::Peer(identity(cursor)?)),
        EntryKind::CreateQueue => Ok(Entry::CreateQueue(queue(cursor)?)),
        EntryKind::Commit => commit(cursor),
        EntryKind::Plain => plain(cursor),
        EntryKind::Offered => Ok(Entry::Offered(few_members(cursor)?)),
        EntryKind::Arrived => arrived(cursor),
        EntryKind::Taken => taken(cursor),
        EntryKind::Purged => purged(cursor),
        EntryKind::Ticked => Ok(Entry::Ticked {
            now: u32_field(cursor)?,
        }),
        EntryKind::Roll => Ok(Entry::Roll {
            count: full_count(cursor)?,
        }),
    }
}

#[tactic(auto, unfolding(crate::specs::Entries::entry_of))]
fn entry(bytes: &[u8]) -> Result<Entry<'_>, EntryFault>
    ensures { result ≡ entry_of bytes.now }
{
    let mut cursor = Cursor::new(bytes);
    let kind = kind(&mut cursor)?;
    let entry = fields(kind, &mut cursor)?;
    if cursor.rest().is_empty() {
        Ok(entry)
    } else {
        Err(EntryFault { at: cursor.at() })
    }
}

/// The entry that bytes are, all of them. It takes no memory: names, packets and lists are slices of the bytes.
pub fn entry_view(bytes: &[u8]) -> Result<Entry<'_>, EntryFault>
    ensures entry { result ≡ entry_of bytes.now }
    ensures spelled { IfOk result (λ entry. bytes.now ≡ spelled entry) }
    // It can be put again.
    ensures fits { IfOk result (λ entry. Fits entry) }
{
    entry(bytes)
}
