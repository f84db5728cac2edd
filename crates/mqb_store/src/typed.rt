//! What values have by their types. But for the last, each function only says it.
ghost use Rattle.std.specs.Prelude.{◌≡◌, Some, length};
ghost use Rattle.mqb_entries.specs.Formats.{IsBytes};
ghost use Rattle.mqb_model.specs.state.Durable.{durable};
ghost use Rattle.mqb_model.specs.state.State.{State};
ghost use Rattle.mqb_store_laws.specs.Images.{state_at};

use mqb_base::Guid;
use mqb_snapshot::read_states_are_durable;

/// A GUID has sixteen bytes.
pub(crate) fn guid_is_whole(guid: Guid)
    ensures { length guid.0 ≡ 16 }
{
    let _bytes = guid.0;
}

/// An address has four bytes.
pub(crate) fn address_is_whole(address: [u8; 4])
    ensures { length address ≡ 4 }
{
    let _bytes = address;
}

fn bytes_are_bytes(bytes: &[u8])
    ensures { IsBytes bytes.now }
{}

/// A state that bytes spell has nothing beside what a store stands for.
pub(crate) fn spelled_is_durable(bytes: &[u8])
    ensures { (s : State) → state_at bytes.now ≡ Some s → durable s ≡ s }
{
    bytes_are_bytes(bytes);
    read_states_are_durable();
}
