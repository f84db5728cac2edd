ghost use Rattle.std.specs.Prelude.{◌≡◌};
ghost use Rattle.mqb_fields.specs.Reading.{Reads};
ghost use Rattle.mqb_names.specs.Reading.{Gives, direct_name_at, guid_at, journal_at, kind_at};
ghost use Rattle.mqb_names.specs.Reading.{machine_at, name_of, number_at, private_at, public_at};

use crate::direct::{direct_part, fault_at, owned};
use crate::faults::{NameFault, NameKind, PartFault};
use crate::parts::{advance, begins, guid_of, hex_digits, hex_number, same_word, skip_word};
use mqb_base::{Guid, MachineQueue, QueueName};
use mqb_fields::Cursor;
use std::alloc::Global;

fn guid(cursor: &mut Cursor<'_>) -> Result<Guid, PartFault>
    ensures { Reads guid_at cursor.old cursor.new result }
{
    match guid_of(cursor.rest()) {
        Some(bytes) => {
            advance(cursor, 36);
            Ok(Guid(bytes))
        }
        None => Err(fault_at(cursor, NameKind::Guid)),
    }
}

fn number(cursor: &mut Cursor<'_>) -> Result<u32, PartFault>
    ensures { Reads number_at cursor.old cursor.new result }
{
    let rest = cursor.rest();
    if !begins(rest, b"\\") {
        return Err(fault_at(cursor, NameKind::Number));
    }
    let digits = hex_digits(&rest[1..]);
    if !matches!(digits.len(), 1..=8) {
        return Err(fault_at(cursor, NameKind::Number));
    }
    advance(cursor, 1 + digits.len());
    Ok(hex_number(digits))
}

fn journal(cursor: &Cursor<'_>) -> Result<bool, PartFault>
    ensures { result ≡ journal_at cursor.now }
{
    let rest = cursor.rest();
    if rest.is_empty() {
        return Ok(false);
    }
    if same_word(rest, b";JOURNAL") {
        return Ok(true);
    }
    Err(fault_at(cursor, NameKind::Suffix))
}

fn machine_queue(cursor: &Cursor<'_>) -> Result<MachineQueue, PartFault>
    ensures { result ≡ kind_at cursor.now }
{
    let rest = cursor.rest();
    if same_word(rest, b";DEADLETTER") {
        return Ok(MachineQueue::DeadLetter);
    }
    if same_word(rest, b";DEADXACT") {
        return Ok(MachineQueue::DeadXact);
    }
    if same_word(rest, b";JOURNAL") {
        return Ok(MachineQueue::Journal);
    }
    Err(fault_at(cursor, NameKind::Suffix))
}

#[tactic(auto, unfolding(crate::specs::Reading::public_at))]
fn public_name(cursor: &mut Cursor<'_>) -> Result<QueueName, PartFault>
    ensures { result ≡ public_at cursor.old }
{
    let guid = guid(cursor)?;
    let journal = journal(cursor)?;
    Ok(QueueName::Public { guid, journal })
}

#[tactic(auto, unfolding(crate::specs::Reading::private_at))]
fn private_name(cursor: &mut Cursor<'_>) -> Result<QueueName, PartFault>
    ensures { result ≡ private_at cursor.old }
{
    let qm = guid(cursor)?;
    let number = number(cursor)?;
    let journal = journal(cursor)?;
    Ok(QueueName::Private {
        qm,
        number,
        journal,
    })
}

#[tactic(auto, unfolding(crate::specs::Reading::direct_name_at))]
fn direct_name(alloc: Global, cursor: &mut Cursor<'_>) -> Result<QueueName, NameFault>
    ensures { Gives (direct_name_at cursor.old) result }
{
    let direct = direct_part(cursor)?;
    let journal = journal(cursor)?;
    Ok(owned(alloc, direct, journal)?)
}

#[tactic(auto, unfolding(crate::specs::Reading::machine_at))]
fn machine_name(cursor: &mut Cursor<'_>) -> Result<QueueName, PartFault>
    ensures { result ≡ machine_at cursor.old }
{
    let qm = guid(cursor)?;
    let kind = machine_queue(cursor)?;
    Ok(QueueName::Machine { qm, kind })
}

/// The name that a text is, or the first of its parts that fails.
pub fn read_name(alloc: Global, text: &[u8]) -> Result<QueueName, NameFault>
    ensures { Gives (name_of text.now) result }
{
    let mut cursor = Cursor::new(text);
    if skip_word(&mut cursor, b"PUBLIC=") {
        return Ok(public_name(&mut cursor)?);
    }
    if skip_word(&mut cursor, b"PRIVATE=") {
        return Ok(private_name(&mut cursor)?);
    }
    if skip_word(&mut cursor, b"DIRECT=") {
        return direct_name(alloc, &mut cursor);
    }
    if skip_word(&mut cursor, b"MACHINE=") {
        return Ok(machine_name(&mut cursor)?);
    }
    Err(fault_at(&cursor, NameKind::Prefix).into())
}
