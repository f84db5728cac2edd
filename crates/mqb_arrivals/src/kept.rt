ghost use Rattle.std.specs.Prelude.{◌&&◌, ◌<◌, ◌≡◌, IfSome, length, nat_le, position};
ghost use Rattle.std.specs.List.{list_any};
ghost use Rattle.mqb_model.specs.records.Finals.{names_kept};

use mqb_base::MessageId;
use mqb_orders::{Kept, KeptList};

fn names_kept(id: MessageId, kept: &Kept) -> bool
    ensures { result ≡ names_kept id kept.now }
{
    kept.message.id == id
}

/// Whether a list keeps the message of an identifier.
pub(crate) fn keeps_named(kept: &KeptList, id: MessageId) -> bool
    ensures { result ≡ list_any (names_kept id) kept.now.items }
{
    for at in 0..kept.len() {
        if names_kept(id, kept.get(at)) {
            return true;
        }
    }
    false
}

fn is_named(id: MessageId, offered: u32, kept: &Kept) -> bool
    ensures { result ≡ (names_kept id kept.now && nat_le kept.now.number offered) }
{
    names_kept(id, kept) && kept.number <= offered
}

/// The index of the first kept message of an identifier whose number is up to this one.
pub(crate) fn index_named(kept: &KeptList, id: MessageId, offered: u32) -> Option<u32>
    ensures index { result ≡
        position (λ k. names_kept id k && nat_le k.number offered) kept.now.items }
    ensures within { IfSome result (λ at. at < length kept.now.items) }
{
    for at in 0..kept.len() {
        if is_named(id, offered, kept.get(at)) {
            return Some(at);
        }
    }
    None
}
