//! How a connection begins, ends and sends anew. None of it writes a record or takes memory.
ghost use Rattle.std.specs.Prelude.{◌≡◌, ◌≤◌};
ghost use Rattle.mqb_manager.specs.Calls.{SaysDown, Succeeds};
ghost use Rattle.mqb_manager.specs.States.{manager_of};
ghost use Rattle.mqb_model.specs.calls.Link.{link, resend, session_for, unlink};

use crate::manager::Manager;
use mqb_choosing::rewind;
use mqb_model::{
    LinkFault, Role, linked_is_valid, refused_is_same, resent_is_valid, unlinked_is_valid,
};
use mqb_session::Session;
use mqb_store::{State, linked_peer};

/// The end of a session that begins, where its peer is there.
fn session_for(state: &State, role: Role, window: u16) -> Option<Session>
    ensures { result ≡ session_for state.now.lists role window }
{
    let own = state.identity().guid;
    match role {
        Role::Initiator { peer } => match state.peers().get(peer as usize) {
            Some(peer) => Some(Session::initiator(own, peer.guid, window)),
            None => None,
        },
        Role::Acceptor => Some(Session::acceptor(own, window)),
    }
}

impl Manager {
    /// Begins a session, as the end that `role` says. `window` is how many user packets may come to it that it did not acknowledge.
    pub fn link(&mut self, role: Role, window: u16) -> Result<(), LinkFault>
        requires { 1 ≤ window }
        ensures answer { result ≡ (link (manager_of self.old) role window).answer }
        ensures down { SaysDown LinkFault.Down self.old self.new result }
        ensures left { Succeeds self.old self.new (link (manager_of self.old) role window) }
        // So the disk stands for its records as before.
        ensures journal { self.new.store.journal ≡ self.old.store.journal }
    {
        linked_is_valid();
        refused_is_same();
        if self.store.is_down() {
            return Err(LinkFault::Down);
        }
        if self.session.is_some() {
            return Err(LinkFault::Linked);
        }
        let Some(session) = session_for(self.store.state(), role, window) else {
            return Err(LinkFault::NoPeer);
        };
        self.session = Some(session);
        Ok(())
    }

    /// The connection ended, and is forgotten: what is not acknowledged is sent in the next one.
    pub fn unlink(&mut self)
        ensures left { Succeeds self.old self.new (unlink (manager_of self.old)) }
        ensures journal { self.new.store.journal ≡ self.old.store.journal }
        // What is in doubt stays.
        ensures entry { self.new.store.entry ≡ self.old.store.entry }
    {
        unlinked_is_valid();
        self.store.unmark();
        self.session = None;
        self.cursors.clear();
        self.owes.clear();
    }

    /// What the rows to the linked peer have is sent again from what is not acknowledged on.
    pub fn resend(&mut self)
        ensures left { Succeeds self.old self.new (resend (manager_of self.old)) }
        ensures journal { self.new.store.journal ≡ self.old.store.journal }
        ensures entry { self.new.store.entry ≡ self.old.store.entry }
    {
        resent_is_valid();
        if let Some(session) = &self.session {
            let state = self.store.state();
            let peer = linked_peer(state, session);
            rewind(state.out_rows(), peer, &mut self.cursors);
        }
    }
}
