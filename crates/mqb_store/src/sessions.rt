//! Which peer a session leads to, and what waits for one.
ghost use Rattle.std.specs.List.{list_any};
ghost use Rattle.std.specs.Option.{option_map_or};
ghost use Rattle.std.specs.Prelude.{◌≡◌, false, slice_get};
ghost use Rattle.mqb_model.specs.managers.Manager.{linked_peer};
ghost use Rattle.mqb_model.specs.managers.Readers.{awaits, has_plain};
ghost use Rattle.mqb_orders.specs.Rows.{row_of};
ghost use Rattle.mqb_session.specs.Sending.{is_ready};

use mqb_orders::OutRow;
use mqb_session::{Phase, Session};
use mqb_state::State;

/// Whether a session is set up.
pub fn is_ready(session: &Session) -> bool
    ensures { result ≡ is_ready session.now.phase }
{
    match session.phase() {
        Phase::Ready => true,
        _ => false,
    }
}

/// The index of the peer to which a session leads. While it is not known, that is
/// the index of no peer.
pub fn linked_peer(state: &State, session: &Session) -> u32
    ensures { result ≡ linked_peer state.now.lists session.now }
{
    let known = match session.peer() {
        Some(guid) => state.contents().peer_known(guid),
        None => None,
    };
    match known {
        Some(peer) => peer,
        None => state.contents().peers().len() as u32,
    }
}

/// Whether plain messages wait for the peer at an index.
pub fn has_plain(state: &State, peer: u32) -> bool
    ensures { result ≡ option_map_or has_plain (slice_get state.now.lists.plain peer) false }
{
    (peer as usize) < state.peers().len() && !state.plain(peer).is_empty()
}

/// Whether a row leads to the peer at an index and has a number that was not acknowledged.
pub fn any_awaits(rows: &[OutRow], peer: u32) -> bool
    ensures { result ≡ list_any (λ r. awaits peer (row_of r)) rows.now }
{
    rows.iter()
        .any(|row| row.peer == peer && row.has_unacknowledged())
}
