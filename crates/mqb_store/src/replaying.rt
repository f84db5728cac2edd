//! The state of a store is made again from its base and its records, one at a time.
ghost use Rattle.std.specs.Prelude.{[], ◌-◌, ◌<◌, ◌≡◌, ◌≢◌, ◌⊎◌, ◌+◌, ◌≤◌, Err, IfOk, IsSomeAnd};
ghost use Rattle.std.specs.Prelude.{None, OnOk, Some, false, length, max, true, ℕ};
ghost use Rattle.mqb_base.specs.Same.{same_guid};
ghost use Rattle.mqb_outside.specs.Disk.{IsSettled, OnlyReads};
ghost use Rattle.mqb_outside.specs.Images.{Each};
ghost use Rattle.mqb_journal.specs.Causes.{FaultsAsSaid, open_failed};
ghost use Rattle.mqb_journal.specs.Journals.{Lent};
ghost use Rattle.mqb_journal.specs.Scan.{ReadsOnlyAt, ReadsOnlyFront};
ghost use Rattle.mqb_journal.specs.Store.{Base, Nothing, bytes_in};
ghost use Rattle.mqb_model.specs.records.Applying.{effect_of, fits};
ghost use Rattle.mqb_model.specs.records.Reading.{record_of};
ghost use Rattle.mqb_model.specs.state.Durable.{durable};
ghost use Rattle.mqb_state.specs.Unfit.{is_fit};
ghost use Rattle.mqb_store.specs.Reaching.{ReadsInOrder, StopsBehind};
ghost use Rattle.mqb_store.specs.Replaying.{IsReadUpTo};
ghost use Rattle.mqb_store_laws.specs.Faults.{IsBadStore};
ghost use Rattle.mqb_store_laws.specs.Images.{state_at};
ghost use Rattle.mqb_store_laws.specs.Settling.{OnlySettles};

use crate::spelling::identity_of;
use crate::typed::{guid_is_whole, spelled_is_durable};
use mqb_base::{Guid, Line, Roomed};
use mqb_entries::entry_view;
use mqb_journal::{OpenFault, Scan};
use mqb_model::durable_is_applied;
use mqb_outside::Disk;
use mqb_state::{BackFault, PrepareFault, State};
use mqb_store_laws::{entries_begin, entries_go_on};
use std::alloc::Global;

/// The state that a base spells, whose identity has the GUID of the header. The base stands
/// in an area at a place.
fn base_state(alloc: Global, base: &[u8], area: u64, guid: Guid) -> Result<State, OpenFault>
    ensures spelled { IfOk result (λ s. state_at base.now ≡ Some s.lists) }
    ensures durable { IfOk result (λ s. durable s.lists ≡ s.lists) }
    ensures own { IfOk result (λ s. same_guid s.lists.identity.guid guid ≡ true) }
    ensures bad { (at : ℕ) → result ≡ Err (OpenFault.BadStore at)
        → ((at ≡ area) × (state_at base.now ≡ None)) ⊎ ((at ≡ 0) × IsSomeAnd (state_at base.now)
        (λ s. same_guid s.identity.guid guid ≡ false)) }
    ensures not_empty { result ≢ Err OpenFault.NotEmpty }
    ensures no_call { result ≢ Err OpenFault.DiskFault }
{
    spelled_is_durable(base);
    let state = match State::read_back(alloc, base) {
        Ok(state) => state,
        Err(BackFault::Bad { .. }) => return Err(OpenFault::BadStore { at: area }),
        Err(BackFault::Memory) => return Err(OpenFault::Memory),
    };
    if state.identity().guid != guid {
        state.close();
        return Err(OpenFault::BadStore { at: 0 });
    }
    Ok(state)
}

/// The state that the first record leaves, which is an identity with the GUID of the header.
fn first_state<D: Disk>(alloc: Global, disk: &mut D, scan: &mut Scan) -> Result<State, OpenFault>
    requires begun { Lent (D.view disk.old) scan.old Nothing [] }
    requires going { scan.old.ended ≡ false }
    requires place { scan.old.place ≡ scan.old.gate }
    requires within { scan.old.gate < scan.old.len }
    requires whole { length scan.old.guid.0 ≡ 16 }
    ensures read { IfOk result (λ s. IsReadUpTo (D.view disk.new) scan.new s.lists []) }
    ensures going { OnOk result (scan.new.ended ≡ false) }
    ensures behind { OnOk result (scan.old.gate ≤ scan.new.gate) }
    ensures bad { (at : ℕ) → result ≡ Err (OpenFault.BadStore at)
        → Each (D.view disk.old).reads (IsBadStore at) }
    ensures never { result ≢ Err OpenFault.NotEmpty }
    ensures reads { OnlyReads (D.view disk.old) (D.view disk.new) }
    ensures reached { OnOk result
        ((D.view disk.new).reached ≤ max (D.view disk.old).reached (scan.new.gate + 1)) }
    ensures no_further { Each (D.view disk.old).reads (ReadsOnlyAt scan.old.gate
        (D.view disk.old).reached (D.view disk.new).reached) }
    ensures cause { FaultsAsSaid open_failed (D.view disk.old).faults
        (D.view disk.new).faults result }
{
    entries_begin();
    let guid = scan.guid();
    if !scan.advance(disk)? {
        return Err(OpenFault::BadStore { at: scan.place() });
    }
    let Some(identity) = identity_of(alloc, scan.record())? else {
        return Err(OpenFault::BadStore { at: scan.place() });
    };
    if identity.guid != guid {
        return Err(OpenFault::BadStore { at: 0 });
    }
    Ok(State::empty(alloc, &identity)?)
}

/// The state on which the records of a store are made: that of its base, or where it has none that
/// of the first record.
pub(crate) fn first<D: Disk>(
    alloc: Global,
    disk: &mut D,
    scan: &mut Scan,
) -> Result<State, OpenFault>
    requires begun { (base : Base)
        × Lent (D.view disk.old) scan.old base [] × (scan.old.base ≡ bytes_in base) }
    requires going { scan.old.ended ≡ false }
    requires place { scan.old.place ≡ scan.old.gate }
    requires within { scan.old.gate < scan.old.len }
    ensures read { IfOk result (λ s. IsReadUpTo (D.view disk.new) scan.new s.lists []) }
    ensures going { OnOk result (scan.new.ended ≡ false) }
    ensures behind { OnOk result (scan.old.gate ≤ scan.new.gate) }
    ensures bad { (at : ℕ) → result ≡ Err (OpenFault.BadStore at)
        → Each (D.view disk.old).reads (IsBadStore at) }
    ensures never { result ≢ Err OpenFault.NotEmpty }
    ensures reads { OnlyReads (D.view disk.old) (D.view disk.new) }
    ensures reached { OnOk result
        ((D.view disk.new).reached ≤ max (D.view disk.old).reached (scan.new.gate + 1)) }
    // Where no more than the front was read before.
    ensures no_further { (before : ℕ)
        → Each (D.view disk.old).reads (ReadsOnlyFront before (D.view disk.old).reached)
        → (D.view disk.old).reached ≤ max before (scan.old.gate + 1)
        → Each (D.view disk.old).reads (ReadsInOrder before (D.view disk.new).reached) }
    ensures cause { FaultsAsSaid open_failed (D.view disk.old).faults
        (D.view disk.new).faults result }
{
    let guid = scan.guid();
    guid_is_whole(guid);
    match scan.take_base() {
        Some(base) => base_state(alloc, &base, scan.area(), guid),
        None => first_state(alloc, disk, scan),
    }
}

/// Makes on a state what bytes say that are the entry at a place, and takes its lines.
fn apply(
    state: &mut State,
    lines: &mut Roomed<Line>,
    bytes: &[u8],
    at: u64,
) -> Result<(), OpenFault>
    ensures ok { OnOk result (IsSomeAnd (record_of bytes.now)
        (λ r. (fits state.old.lists r ≡ true) × (effect_of state.old.lists r
        ≡ record { state = state.new.lists; lines = lines.new.items }))) }
    ensures bad { (k : ℕ) → result ≡ Err (OpenFault.BadStore k)
        → (k ≡ at) × (is_fit state.old.lists (record_of bytes.now) ≡ false) }
    ensures not_empty { result ≢ Err OpenFault.NotEmpty }
    ensures no_call { result ≢ Err OpenFault.DiskFault }
{
    let Ok(entry) = entry_view(bytes) else {
        return Err(OpenFault::BadStore { at });
    };
    match state.apply(&entry) {
        Ok(made) => {
            *lines = made;
            Ok(())
        }
        Err(PrepareFault::Unfit) => Err(OpenFault::BadStore { at }),
        Err(PrepareFault::Memory) => Err(OpenFault::Memory),
    }
}

/// Reads one record more and makes it on the state, or finds that there is none.
fn step<D: Disk>(
    disk: &mut D,
    scan: &mut Scan,
    state: &mut State,
    lines: &mut Roomed<Line>,
) -> Result<bool, OpenFault>
    requires read { IsReadUpTo (D.view disk.old) scan.old state.old.lists lines.old.items }
    requires going { scan.old.ended ≡ false }
    ensures read { OnOk result
        (IsReadUpTo (D.view disk.new) scan.new state.new.lists lines.new.items) }
    ensures going { IfOk result (λ more. more ≡ true → scan.new.ended ≡ false) }
    ensures ended { IfOk result (λ more. more ≡ false → scan.new.ended ≡ true) }
    ensures behind { OnOk result (scan.old.gate ≤ scan.new.gate) }
    ensures further { IfOk result (λ more. more ≡ true
        → scan.new.len - scan.new.gate < scan.old.len - scan.old.gate) }
    ensures bad { (at : ℕ) → result ≡ Err (OpenFault.BadStore at)
        → Each (D.view disk.old).reads (IsBadStore at) }
    ensures never { result ≢ Err OpenFault.NotEmpty }
    ensures reads { OnlyReads (D.view disk.old) (D.view disk.new) }
    ensures reached { OnOk result
        ((D.view disk.new).reached ≤ max (D.view disk.old).reached (scan.new.gate + 1)) }
    ensures no_further { Each (D.view disk.old).reads (ReadsOnlyAt scan.old.gate
        (D.view disk.old).reached (D.view disk.new).reached) }
    ensures cause { FaultsAsSaid open_failed (D.view disk.old).faults
        (D.view disk.new).faults result }
{
    entries_go_on();
    durable_is_applied();
    state.is_valid();
    if !scan.advance(disk)? {
        return Ok(false);
    }
    apply(state, lines, scan.record(), scan.place())?;
    Ok(true)
}

/// Makes all records that are left, and answers the lines of the last.
fn replay<D: Disk>(
    alloc: Global,
    disk: &mut D,
    scan: &mut Scan,
    state: &mut State,
) -> Result<Roomed<Line>, OpenFault>
    requires read { IsReadUpTo (D.view disk.old) scan.old state.old.lists [] }
    requires going { scan.old.ended ≡ false }
    ensures read { IfOk result (λ lines.
        IsReadUpTo (D.view disk.new) scan.new state.new.lists lines.items) }
    ensures ended { OnOk result (scan.new.ended ≡ true) }
    ensures behind { OnOk result (scan.old.gate ≤ scan.new.gate) }
    ensures bad { (at : ℕ) → result ≡ Err (OpenFault.BadStore at)
        → Each (D.view disk.old).reads (IsBadStore at) }
    ensures never { result ≢ Err OpenFault.NotEmpty }
    ensures reads { OnlyReads (D.view disk.old) (D.view disk.new) }
    ensures reached { OnOk result
        ((D.view disk.new).reached ≤ max (D.view disk.old).reached (scan.new.gate + 1)) }
    ensures no_further { (before : ℕ)
        → (D.view disk.old).reached ≤ max before (scan.old.gate + 1)
        → Each (D.view disk.old).reads (StopsBehind before (D.view disk.new).reached) }
    ensures cause { FaultsAsSaid open_failed (D.view disk.old).faults
        (D.view disk.new).faults result }
{
    let mut lines = Roomed::new(alloc);
    'records: while step(disk, scan, state, &mut lines)? {}
    Ok(lines)
}

/// Makes all records that are left, and syncs the disk, since who wrote them may have been killed
/// before. Answers the lines of the last.
pub(crate) fn replay_durably<D: Disk>(
    alloc: Global,
    disk: &mut D,
    scan: &mut Scan,
    state: &mut State,
) -> Result<Roomed<Line>, OpenFault>
    requires read { IsReadUpTo (D.view disk.old) scan.old state.old.lists [] }
    requires going { scan.old.ended ≡ false }
    ensures read { IfOk result (λ lines.
        IsReadUpTo (D.view disk.new) scan.new state.new.lists lines.items) }
    ensures ended { OnOk result (scan.new.ended ≡ true) }
    ensures behind { OnOk result (scan.old.gate ≤ scan.new.gate) }
    ensures settled { OnOk result (IsSettled (D.view disk.new)) }
    ensures bad { (at : ℕ) → result ≡ Err (OpenFault.BadStore at)
        → Each (D.view disk.old).reads (IsBadStore at) }
    ensures never { result ≢ Err OpenFault.NotEmpty }
    ensures reads { OnlySettles (D.view disk.old) (D.view disk.new) }
    ensures reached { OnOk result
        ((D.view disk.new).reached ≤ max (D.view disk.old).reached (scan.new.gate + 1)) }
    ensures no_further { (before : ℕ)
        → (D.view disk.old).reached ≤ max before (scan.old.gate + 1)
        → Each (D.view disk.old).reads (StopsBehind before (D.view disk.new).reached) }
    ensures cause { FaultsAsSaid open_failed (D.view disk.old).faults
        (D.view disk.new).faults result }
{
    let lines = replay(alloc, disk, scan, state)?;
    disk.sync()?;
    Ok(lines)
}
