ghost use Rattle.std.specs.Prelude.{◌≡◌, ◌+◌, ◌*◌, ◌≤◌, Err, IfOk, IsSomeAnd, OnErr, OnOk};
ghost use Rattle.std.specs.Prelude.{Some, option_copied};
ghost use Rattle.mqb_contents.specs.Changes.{AllReady, messages_back, redone, rooms_redone};
ghost use Rattle.mqb_contents.specs.Rooms.{IsGrown};
ghost use Rattle.mqb_timeouts.specs.Work.{beside_of};
ghost use Rattle.mqb_model.specs.managers.Beside as beside;
ghost use Rattle.mqb_model.specs.rules.Effects.{begun};
ghost use Rattle.mqb_model.specs.state.Valid.{IsValidState};
ghost use Rattle.mqb_records.specs.Unfit.{IsUnfit};
ghost use Rattle.mqb_records.specs.mqb_arrivals.declared.faults.RecordFault.TheVariants as fault;
ghost use Rattle.mqb_state.specs.Attempts.{LeadsBack};
ghost use Rattle.mqb_state.specs.Together.{IsTried, LeavesValid, count_with};
ghost use Rattle.mqb_state.specs.Together.{effect_with, record_count};

use crate::attempt::Attempt;
use crate::state::State;
use crate::typed::entry_is_read;
use core::mem::replace_with;
use mqb_contents::Contents;
use mqb_drafts::{Draft, redo};
use mqb_entries::Entry;
use mqb_model::applied_is_valid;
use mqb_records::{RecordFault, apply_record};
use mqb_timeouts::{ExpressWork, beside_done};
use std::alloc::Global;

/// An entry is tried, where there is one.
fn try_entry(draft: &mut Draft, entry: Option<&Entry<'_>>) -> Result<(), RecordFault>
    requires valid { IsValidState draft.old.effect.state }
    requires begun { draft.old.effect ≡ begun draft.old.effect.state }
    ensures ok { OnOk result (IsTried draft.old.effect.state (option_copied entry.entry)
        (λ r. draft.new.effect ≡ effect_with draft.old.effect.state r beside.Nothing)) }
    ensures start { draft.new.start ≡ draft.old.start }
    ensures grown { IsGrown draft.old.rooms draft.new.rooms }
    ensures few { OnOk result (IsTried draft.old.effect.state (option_copied entry.entry)
        (λ r. draft.new.held ≤ draft.old.held + 3 * record_count draft.old.effect.state r)) }
    ensures unfit { result ≡ Err fault.Unfit →
        IsSomeAnd (option_copied entry.entry) (IsUnfit draft.old.effect.state) }
{
    match entry {
        Some(entry) => apply_record(draft, entry),
        None => Ok(()),
    }
}

/// An entry is tried, where there is one, and then what is done beside it.
fn try_both(
    draft: &mut Draft,
    entry: Option<&Entry<'_>>,
    work: ExpressWork,
) -> Result<(), RecordFault>
    requires valid { IsValidState draft.old.effect.state }
    requires begun { draft.old.effect ≡ begun draft.old.effect.state }
    ensures ok { OnOk result (IsTried draft.old.effect.state (option_copied entry.entry)
        (λ r. draft.new.effect ≡ effect_with draft.old.effect.state r (beside_of work))) }
    ensures start { draft.new.start ≡ draft.old.start }
    ensures grown { IsGrown draft.old.rooms draft.new.rooms }
    ensures few { OnOk result (IsTried draft.old.effect.state (option_copied entry.entry)
        (λ r. draft.new.held ≤ draft.old.held + 3 * count_with draft.old.effect.state r work)) }
    ensures unfit { result ≡ Err fault.Unfit →
        IsSomeAnd (option_copied entry.entry) (IsUnfit draft.old.effect.state) }
{
    match try_entry(draft, entry) {
        Ok(()) => Ok(beside_done(draft, work)?),
        Err(fault) => {
            let _work = work;
            Err(fault)
        }
    }
}

/// Both are done, or taken back where they cannot be done whole.
fn attempt_in(
    contents: Box<Contents>,
    trial: (Global, Option<&Entry<'_>>, ExpressWork),
) -> (Box<Contents>, Result<Attempt, RecordFault>)
    requires valid { IsValidState contents.value.lists }
    requires leaves { LeavesValid contents.value.lists (option_copied trial.1)
        (beside_of trial.2) }
    ensures ok { IfOk result.1 (λ a. IsTried contents.value.lists (option_copied trial.entry.1)
        (λ r. effect_with contents.value.lists r (beside_of trial.entry.2) ≡
        record { state = result.0.value.lists; lines = a.lines })) }
    ensures back { IfOk result.1 (λ a. LeadsBack result.0.value a.back contents.value) }
    ensures few { IfOk result.1 (λ a. IsTried contents.value.lists (option_copied trial.entry.1)
        (λ r. messages_back a.back ≤ 3 * count_with contents.value.lists r trial.entry.2)) }
    ensures valid { IsValidState result.0.value.lists }
    ensures refused { OnErr result.1 (result.0.value.lists ≡ contents.value.lists) }
    ensures grown { OnErr result.1 (IsGrown contents.value.rooms result.0.value.rooms) }
    ensures unfit { result.1 ≡ Err fault.Unfit →
        IsSomeAnd (option_copied trial.entry.1) (IsUnfit contents.value.lists) }
{
    let (alloc, entry, work) = trial;
    let mut draft = Draft::new(alloc, contents);
    match try_both(&mut draft, entry, work) {
        Ok(()) => {
            let (contents, back, lines) = draft.keep();
            (contents, Ok(Attempt { back, lines }))
        }
        Err(fault) => (draft.take_back(), Err(fault)),
    }
}

impl State {
    /// What an entry does with nothing beside it leaves a valid state. This says
    /// so, and does nothing.
    pub(crate) fn leaves_valid(&self, entry: &Entry<'_>)
        ensures { LeavesValid self.now.lists (Some entry.now) beside.Nothing }
    {
        self.is_valid();
        entry_is_read(entry);
        applied_is_valid();
    }

    /// Does what an entry does, where there is one, and then what is done to express messages
    /// beside it, which must leave a valid state, as each call of a valid manager does. The answer
    /// leads back, without memory.
    ///
    /// # Errors
    /// `Unfit` where the entry does not fit the state, and `Memory`. The lists stay as they are
    /// then, and the room that was made is kept.
    pub fn attempt(
        &mut self,
        entry: Option<&Entry<'_>>,
        work: ExpressWork,
    ) -> Result<Attempt, RecordFault>
        requires { LeavesValid self.old.lists (option_copied entry) (beside_of work) }
        ensures ok { IfOk result (λ a. IsTried self.old.lists (option_copied entry.entry)
            (λ r. effect_with self.old.lists r (beside_of work) ≡
            record { state = self.new.lists; lines = a.lines })) }
        ensures back { IfOk result (λ a. LeadsBack self.new a.back self.old) }
        ensures few { IfOk result (λ a. IsTried self.old.lists (option_copied entry.entry)
            (λ r. messages_back a.back ≤ 3 * count_with self.old.lists r work)) }
        ensures refused { OnErr result (self.new.lists ≡ self.old.lists) }
        ensures grown { OnErr result (IsGrown self.old.rooms self.new.rooms) }
        ensures unfit { result ≡ Err fault.Unfit →
            IsSomeAnd (option_copied entry.entry) (IsUnfit self.old.lists) }
    {
        replace_with(&mut self.contents, (self.alloc, entry, work), attempt_in)
    }

    /// Takes an attempt back from the state as it left it. It takes no memory.
    pub fn take_back(&mut self, attempt: Attempt)
        requires ready { AllReady self.old attempt.back }
        requires valid { IsValidState (redone self.old.lists attempt.back) }
        ensures lists { self.new.lists ≡ redone self.old.lists attempt.back }
        ensures rooms { self.new.rooms ≡ rooms_redone self.old.rooms attempt.back }
    {
        redo(&mut self.contents, attempt.back);
    }
}
