ghost use Rattle.std.specs.Prelude.{◌≡◌, ◌≤◌, ◌*◌, length, is_some, IfOk, IfSome, IsSome};
ghost use Rattle.std.specs.Prelude.{option_map, take};
ghost use Rattle.std.specs.Result.{result_ok};
ghost use Rattle.mqb_names.specs.Directs.{names_of};
ghost use Rattle.mqb_names.specs.Wire.{IsWireForm, direct_of, direct_from, length_at, private_from};
ghost use Rattle.mqb_names.specs.Wire.{public_from, spelled, start, text_of, used, wire_at};

use crate::direct::{DirectPart, direct_part, owned};
use crate::wire::{MAX_DIRECT_UNITS, NameView, WireFault};
use mqb_base::{Guid, Memory, QueueName};
use mqb_fields::{Cursor, Short};
use std::alloc::Global;

/// Writes the text of units to the start of the room, and tells how long it is. A unit from
/// 0x80 on makes no text.
fn copy_text(units: &[u8], room: &mut [u8]) -> Option<usize>
    requires { length units.now ≤ 2 * length room.old }
    ensures text { option_map (λ len. take len room.new) result ≡ text_of units.now }
    ensures fits { IfSome result (λ len. len ≤ length room.new) }
{
    let mut len = 0;
    let mut rest = units;
    while let [low, high, after @ ..] = rest {
        if *low >= 0x80 || *high != 0 {
            return None;
        }
        room[len] = *low;
        len += 1;
        rest = after;
    }
    if rest.is_empty() { Some(len) } else { None }
}

#[tactic(auto, unfolding(crate::specs::Wire::direct_of))]
fn direct_of(text: &[u8]) -> Option<DirectPart<'_>>
    ensures { option_map names_of result ≡ direct_of text.now }
{
    let mut cursor = Cursor::new(text);
    let direct = direct_part(&mut cursor).ok()?;
    if cursor.rest().is_empty() {
        Some(direct)
    } else {
        None
    }
}

fn public_name(part: &[u8]) -> Result<QueueName, Short>
    ensures { result ≡ public_from (start part.now) }
{
    let mut cursor = Cursor::new(part);
    let guid = Guid(cursor.guid()?);
    Ok(QueueName::Public {
        guid,
        journal: false,
    })
}

fn private_name(part: &[u8]) -> Result<QueueName, Short>
    ensures { result ≡ private_from (start part.now) }
{
    let mut cursor = Cursor::new(part);
    let qm = Guid(cursor.guid()?);
    let number = cursor.u32()?;
    Ok(QueueName::Private {
        qm,
        number,
        journal: false,
    })
}

fn is_direct(units: &[u8]) -> bool
    ensures { result ≡ is_some (direct_from units.now) }
{
    if units.len() > 2 * MAX_DIRECT_UNITS {
        return false;
    }
    let mut text = [0; MAX_DIRECT_UNITS];
    match copy_text(units, &mut text) {
        Some(len) => direct_of(&text[..len]).is_some(),
        None => false,
    }
}

fn direct_name(alloc: Global, units: &[u8]) -> Result<Option<QueueName>, Memory>
    ensures { IfOk result (λ name. name ≡ direct_from units.now) }
{
    if units.len() > 2 * MAX_DIRECT_UNITS {
        return Ok(None);
    }
    let mut text = [0; MAX_DIRECT_UNITS];
    let Some(len) = copy_text(units, &mut text) else {
        return Ok(None);
    };
    match direct_of(&text[..len]) {
        Some(direct) => Ok(Some(owned(alloc, direct, false)?)),
        None => Ok(None),
    }
}

#[tactic(auto, unfolding(crate::specs::Wire::length_at))]
fn length_at(kind: u8, bytes: &[u8]) -> Result<usize, WireFault>
    ensures { result ≡ length_at kind bytes.now }
{
    match kind {
        1 => Ok(16),
        2 => Ok(20),
        3 => match Cursor::new(bytes).u16() {
            Ok(count) if usize::from(count) > MAX_DIRECT_UNITS => Err(WireFault::Bad),
            Ok(count) => Ok(2 + 2 * usize::from(count)),
            Err(_) => Err(WireFault::Short),
        },
        _ => Err(WireFault::Bad),
    }
}

#[tactic(auto, unfolding(crate::specs::Wire::spelled))]
fn is_spelled(kind: u8, part: &[u8]) -> bool
    requires { 2 ≤ length part.now }
    ensures { result ≡ is_some (spelled kind part.now) }
{
    match kind {
        1 => public_name(part).is_ok(),
        2 => private_name(part).is_ok(),
        3 => is_direct(&part[2..]),
        _ => false,
    }
}

/// Finds the wire form of a name of this type at the front of bytes, and tells
/// how many bytes it has.
pub fn read_wire_name(kind: u8, bytes: &[u8]) -> Result<(NameView<'_>, usize), WireFault>
    ensures used { used result ≡ wire_at kind bytes.now }
    ensures kind { IfOk result (λ found. found.0.kind ≡ kind) }
    ensures part { IfOk result (λ found. found.0.part.now ≡ take found.1 bytes.now) }
    ensures form { IfOk result (λ found. IsWireForm found.0.kind found.0.part.now) }
{
    let len = length_at(kind, bytes)?;
    if bytes.len() < len {
        return Err(WireFault::Short);
    }
    let part = &bytes[..len];
    if is_spelled(kind, part) {
        Ok((NameView { kind, part }, len))
    } else {
        Err(WireFault::Bad)
    }
}

impl NameView<'_> {
    /// The name.
    #[tactic(auto, unfolding(crate::specs::Wire::spelled))]
    pub fn to_owned(&self, alloc: Global) -> Result<QueueName, Memory>
        requires { IsWireForm self.now.kind self.now.part.now }
        ensures { IfOk result (λ name. spelled self.now.kind self.now.part.now ≡ Some name) }
    {
        let name = match self.kind {
            1 => public_name(self.part).ok(),
            2 => private_name(self.part).ok(),
            _ => direct_name(alloc, &self.part[2..])?,
        };
        match name {
            Some(name) => Ok(name),
            None => unreachable!(),
        }
    }
}
