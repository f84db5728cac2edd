ghost use Rattle.std.specs.Prelude.{◌≡◌, IfOk};
ghost use Rattle.mqb_fields.specs.Reading.{ReadsAs, Reads, Moves};
ghost use Rattle.mqb_base.specs.declared.queue_names.QueueName.TheVariants as form;
ghost use Rattle.mqb_names.specs.Reading.{bad, direct_at, host_at, name_at, os_at, tcp_at, word_at};
ghost use Rattle.mqb_names.specs.declared.faults.NameKind.TheVariants as kind;
ghost use Rattle.mqb_names.specs.Printed.{path};
ghost use Rattle.mqb_names.specs.Directs.{host_of, names_of};

use crate::faults::{NameKind, PartFault};
use crate::parts::{address, advance, before_stop, is_name, skip_word};
use mqb_base::{Host, Memory, Name, QueueName};
use mqb_fields::Cursor;
use std::alloc::Global;

/// A host as it was read, before memory is taken for it.
#[derive(Clone, Copy, Debug)]
pub enum HostPart<'a> {
    Os(&'a [u8]),
    Tcp([u8; 4]),
}

/// Host and queue of a direct name.
#[derive(Clone, Copy, Debug)]
pub struct DirectPart<'a> {
    pub host: HostPart<'a>,
    pub queue: &'a [u8],
}

/// The fault of the part that begins at the cursor's place.
pub(crate) fn fault_at(cursor: &Cursor<'_>, kind: NameKind) -> PartFault
    ensures { result ≡ record { at = cursor.now.at; kind = kind } }
{
    PartFault {
        at: cursor.at(),
        kind,
    }
}

fn name_part<'a>(cursor: &mut Cursor<'a>, kind: NameKind) -> Result<&'a [u8], PartFault>
    ensures { ReadsAs (λ name. name.now) (name_at kind) cursor.old cursor.new result }
{
    let name = before_stop(cursor.rest());
    if !is_name(name) {
        return Err(fault_at(cursor, kind));
    }
    advance(cursor, name.len());
    Ok(name)
}

fn os_part<'a>(cursor: &mut Cursor<'a>) -> Result<HostPart<'a>, PartFault>
    ensures { ReadsAs host_of os_at cursor.old cursor.new result }
{
    Ok(HostPart::Os(name_part(cursor, NameKind::Host)?))
}

fn tcp_part<'a>(cursor: &mut Cursor<'a>) -> Result<HostPart<'a>, PartFault>
    ensures { ReadsAs host_of tcp_at cursor.old cursor.new result }
{
    let text = before_stop(cursor.rest());
    match address(text) {
        Some(address) => {
            advance(cursor, text.len());
            Ok(HostPart::Tcp(address))
        }
        None => Err(fault_at(cursor, NameKind::Host)),
    }
}

fn host_part<'a>(cursor: &mut Cursor<'a>) -> Result<HostPart<'a>, PartFault>
    ensures { ReadsAs host_of host_at cursor.old cursor.new result }
{
    if skip_word(cursor, b"OS:") {
        return os_part(cursor);
    }
    if skip_word(cursor, b"TCP:") {
        return tcp_part(cursor);
    }
    Err(fault_at(cursor, NameKind::Protocol))
}

fn path(cursor: &mut Cursor<'_>) -> Result<(), PartFault>
    ensures { Moves (word_at path kind.Path) cursor.old cursor.new result }
{
    if skip_word(cursor, b"\\PRIVATE$\\") {
        Ok(())
    } else {
        Err(fault_at(cursor, NameKind::Path))
    }
}

/// Host and queue of a direct name, up to what stands behind them.
#[tactic(auto, unfolding(crate::specs::Reading::direct_at))]
pub(crate) fn direct_part<'a>(cursor: &mut Cursor<'a>) -> Result<DirectPart<'a>, PartFault>
    ensures { ReadsAs names_of direct_at cursor.old cursor.new result }
{
    let host = host_part(cursor)?;
    path(cursor)?;
    let queue = name_part(cursor, NameKind::Queue)?;
    Ok(DirectPart { host, queue })
}

fn owned_name(alloc: Global, bytes: &[u8]) -> Result<Name, Memory>
    ensures { IfOk result (λ name. name ≡ bytes.now) }
{
    Name::new(alloc, bytes).map_err(|_| Memory)
}

/// The name with this host and queue, which were read.
pub(crate) fn owned(alloc: Global, part: DirectPart<'_>, journal: bool) -> Result<QueueName, Memory>
    ensures { IfOk result (λ name. name ≡
        form.Direct (host_of part.entry.host) part.entry.queue.now journal) }
{
    let host = match part.host {
        HostPart::Os(name) => Host::Os(owned_name(alloc, name)?),
        HostPart::Tcp(address) => Host::Tcp(address),
    };
    let queue = owned_name(alloc, part.queue)?;
    Ok(QueueName::Direct {
        host,
        queue,
        journal,
    })
}
