//! Entries in blocks, and what bytes say.
ghost use Rattle.std.specs.Prelude.{◌≡◌, IfOk, OnOk, Some};
ghost use Rattle.mqb_entries.specs.SpelledEntries.{Fits, spelled};
ghost use Rattle.mqb_journal.specs.Blocks.{IsBlock, record_of_block};
ghost use Rattle.mqb_journal.specs.Store.{IsSmall};
ghost use Rattle.mqb_model.specs.records.Reading.{record_in, record_of};
ghost use Rattle.mqb_model.specs.records.Record as record_kind;
ghost use Rattle.mqb_store_laws.specs.Images.{identity_in};

use crate::typed::address_is_whole;
use mqb_base::{Identity, Memory};
use mqb_entries::{Entry, IdentityView, NameSlice, entry_view, put_entry};
use mqb_journal::{begin_block, close_block};
use mqb_state::owned_identity;
use std::alloc::Global;

/// Spells an entry in a block, in place of what was spelled there, and closes it.
pub(crate) fn spell(entry: &Entry<'_>, block: &mut Vec<u8>) -> Result<(), Memory>
    requires put { Fits entry.now }
    requires small { IsSmall (spelled entry.now) }
    ensures block { OnOk result (IsBlock block.new.items) }
    ensures spelled { OnOk result (record_of_block block.new.items ≡ spelled entry.now) }
    ensures record { OnOk result
        (record_of (record_of_block block.new.items) ≡ record_in entry.now) }
{
    begin_block(block)?;
    put_entry(entry, block)?;
    close_block(block)
}

/// The block of a first record.
#[tactic(auto, using(crate::proofs::Short::identity_is_short))]
pub(crate) fn identity_block(alloc: Global, identity: &Identity) -> Result<Vec<u8>, Memory>
    ensures block { IfOk result (λ block. IsBlock block.items) }
    ensures record { IfOk result (λ block. record_of (record_of_block block.items)
        ≡ Some (record_kind.Identity identity.now)) }
{
    let host = NameSlice::of(&identity.host);
    let _name = host.as_slice();
    address_is_whole(identity.address);
    let entry = Entry::Identity(IdentityView {
        host,
        guid: identity.guid,
        address: identity.address,
    });
    let mut block = Vec::new(alloc);
    spell(&entry, &mut block)?;
    Ok(block)
}

/// The identity that bytes are the entry of, if they are.
pub(crate) fn identity_of(alloc: Global, bytes: &[u8]) -> Result<Option<Identity>, Memory>
    ensures { IfOk result (λ found. found ≡ identity_in (record_of bytes.now)) }
{
    match entry_view(bytes) {
        Ok(Entry::Identity(view)) => Ok(Some(owned_identity(alloc, &view)?)),
        _ => Ok(None),
    }
}
