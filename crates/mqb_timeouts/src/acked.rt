ghost use Rattle.std.specs.Prelude.{◌≡◌, ◌≤◌, IsSomeAnd, OnOk, false, filter, not, slice_get, true};
ghost use Rattle.mqb_contents.specs.Rooms.{IsGrown};
ghost use Rattle.mqb_model.specs.managers.Beside.{without_acked};
ghost use Rattle.mqb_model.specs.rules.Effects.{without_line};
ghost use Rattle.mqb_model.specs.state.Places.{with_plain};
ghost use Rattle.mqb_plain.specs.Lists.{is_sent_by};

use mqb_base::{Lane, Memory};
use mqb_contents::Contents;
use mqb_plain::PlainOut;
use mqb_rules::Draft;

/// Whether the first express message was sent with a number up to this one. None was where it was
/// not, for numbers rise.
fn is_first_acked(plain: &PlainOut, number: u16) -> bool
    ensures first { result ≡ true → IsSomeAnd (slice_get plain.now.lists.express 0)
        (λ o. is_sent_by number o ≡ true) }
    ensures none { result ≡ false → without_acked number plain.now.lists ≡ plain.now.lists }
{
    let _in_order = plain.express();
    match plain.marks(Lane::Express).first() {
        Some(mark) => *mark <= number,
        None => false,
    }
}

/// The same of those for the peer at an index, where the peer is there.
fn is_acked(contents: &Contents, peer: u32, number: u16) -> bool
    ensures first { result ≡ true → IsSomeAnd (slice_get contents.now.lists.plain peer)
        (λ p. IsSomeAnd (slice_get p.express 0) (λ o. is_sent_by number o ≡ true)) }
    ensures none { result ≡ false →
        with_plain (without_acked number) contents.now.lists peer ≡ contents.now.lists }
{
    (peer as usize) < contents.peers().len() && is_first_acked(contents.plain(peer), number)
}

/// The express messages for a peer that it acknowledged up to a number leave.
pub(crate) fn drop_acked(draft: &mut Draft, peer: u32, number: u16) -> Result<(), Memory>
    ensures ok { OnOk result (draft.new.effect ≡ without_line draft.old.effect
        (with_plain (without_acked number) draft.old.effect.state peer)) }
    ensures start { draft.new.start ≡ draft.old.start }
    ensures grown { IsGrown draft.old.rooms draft.new.rooms }
    ensures held { OnOk result (draft.new.held ≤ draft.old.held) }
{
    while is_acked(draft.contents(), peer, number) {
        draft.take_out_plain(peer, Lane::Express, 0)?;
    }
    Ok(())
}
