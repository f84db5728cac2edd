ghost use Rattle.std.specs.Prelude.{◌≡◌, IfOk, Ok};
ghost use Rattle.mqb_contents.specs.Rooms.{no_room};
ghost use Rattle.mqb_model.specs.state.Durable.{durable};
ghost use Rattle.mqb_model.specs.state.State as model;
ghost use Rattle.mqb_model.specs.state.State.{empty};
ghost use Rattle.mqb_model.specs.state.Valid.{IsValidState};
ghost use Rattle.mqb_read_back.specs.Answers.{IsReadBack};
ghost use Rattle.mqb_snapshot.specs.Reading.{state_of};
ghost use Rattle.mqb_snapshot.specs.Snapshot.{snapshot};
ghost use Rattle.mqb_snapshot.specs.Values.{IsState};

use crate::typed::read_back_is_valid;
use mqb_base::{Identity, Memory};
use mqb_contents::Contents;
use mqb_model::new_is_valid;
use mqb_read_back::{BackFault, read_back};
use mqb_snapshot::snapshots_are_read_back;
use std::alloc::Global;
use std::marker::Model;

/// What a store stands for, and beside it what a restart forgets: express messages, and the marks
/// of plain messages that were sent. Contracts see the lists, and beside them how many members each
/// can have without memory. Each state is valid.
#[derive(Debug, Drop)]
pub struct State {
    pub(crate) contents: Box<Contents>,
    pub(crate) alloc: Global,
}

impl Model for State {
    ghost use Rattle.mqb_base.specs.Rooms.{WithRooms};
    ghost use Rattle.mqb_contents.specs.Rooms.{StateRooms};
    ghost use Rattle.mqb_model.specs.state.State as model;

    ghost Value = { WithRooms model.State StateRooms };

    ghost use Rattle.mqb_model.specs.state.Valid.{IsValidState};

    ghost view = { λ s. s.contents.value };

    ghost invariant = { λ s. IsValidState s.contents.value.lists };
}

/// The state that keeps these contents.
fn keeping(alloc: Global, contents: Contents) -> Result<State, Memory>
    requires { IsValidState contents.lists }
    ensures { IfOk result (λ s. s ≡ contents) }
{
    let contents = Box::new(alloc, contents)?;
    Ok(State { contents, alloc })
}

impl State {
    /// The state that a first record with this identity leaves. It has no room.
    pub fn empty(alloc: Global, identity: &Identity) -> Result<State, Memory>
        ensures { IfOk result (λ s. s ≡ record { lists = empty identity.now; rooms = no_room }) }
    {
        new_is_valid();
        let identity = identity.clone()?;
        keeping(alloc, Contents::empty(alloc, identity))
    }

    /// What a store stands for that was spelled as these bytes, all of them, or the first field
    /// that stands in no such bytes.
    pub fn read_back(alloc: Global, bytes: &[u8]) -> Result<State, BackFault>
        // Of any bytes.
        ensures exact { IsReadBack (state_of bytes.now) result }
        // Of those that spell a state.
        ensures again { (s : model.State) → IsValidState s → IsState s → bytes.now ≡ snapshot s →
            IsReadBack (Ok (durable s)) result }
    {
        snapshots_are_read_back();
        read_back_is_valid(bytes);
        let contents = read_back(alloc, bytes)?;
        match keeping(alloc, contents) {
            Ok(state) => Ok(state),
            Err(Memory) => Err(BackFault::Memory),
        }
    }

    /// Lets the state go. Where a state ends by this call, how it ends is not proved again.
    pub fn close(self) {
        Box::into_inner(self.contents).close();
    }
}
