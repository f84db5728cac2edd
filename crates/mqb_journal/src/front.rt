ghost use Rattle.std.specs.Prelude.{◌≡◌, ◌≢◌, ◌+◌, ◌<◌, ◌≤◌, max, ℕ, length, Some, Err, IfOk, OnOk};
ghost use Rattle.std.specs.Option.{option_map};
ghost use Rattle.mqb_outside.specs.Images.{Each};
ghost use Rattle.mqb_outside.specs.Disk.{OnlyReads, AtMost};
ghost use Rattle.mqb_outside.specs.declared.disk.TheConstants.{MAX_DISK};
ghost use Rattle.mqb_fields.specs.Guids.{swapped};
ghost use Rattle.mqb_layout.specs.declared.limits.TheConstants.{MIN_STORE, MAX_BASE, MOST_COUNT};
ghost use Rattle.mqb_layout.specs.declared.limits.TheConstants.{MOST_HEAD, HEAD, PAGE, AREA};
ghost use Rattle.mqb_layout.specs.Store.{part, head_of, area};
ghost use Rattle.mqb_layout.specs.Layouts.{IsWithinStore, layout_of};
ghost use Rattle.mqb_journal.specs.Scan.{HasNoFront, IsLater, ReadsOnlyFront};
ghost use Rattle.mqb_journal.specs.Journals.{IsFrontOf};
ghost use Rattle.mqb_journal.specs.Causes.{FaultsAsSaid, open_failed};

use crate::faults::OpenFault;
use crate::reading::bytes_at;
use mqb_base::Guid;
use mqb_layout::{
    AREA, HEAD, HEADER, Layout, MAX_BASE, MOST_COUNT, PAGE, byte_at, guid_of, has_magic, header_at,
    long_at, number_at, pages_of, place_told,
};
use mqb_outside::Disk;
use std::alloc::Global;

/// What stands before a store's first gate, and where that is.
#[derive(Drop)]
pub(crate) struct Front {
    pub guid: Guid,
    pub later: Option<Layout>,
    pub first: u64,
    pub count: u64,
    pub base: Option<Vec<u8>>,
}

/// Reads what stands before the first gate of a store of so many bytes.
pub(crate) fn front_at<D: Disk>(alloc: Global, disk: &mut D, len: u64) -> Result<Front, OpenFault>
    requires bound { len ≤ MAX_DISK }
    requires long { MIN_STORE ≤ len }
    requires length { Each (D.view disk.old).reads (λ c. len ≡ length c) }
    ensures front { IfOk result (λ f. IsFrontOf (D.view disk.old).reads f.guid.0 f.later f.first
        f.count (option_map (λ v. v.items) f.base)) }
    ensures within { IfOk result (λ f. f.first < len) }
    ensures laid { IfOk result (λ f. IsWithinStore f.later f.first) }
    ensures counted { IfOk result (λ f. f.count ≤ MOST_COUNT) }
    ensures bad { (at : ℕ) → result ≡ Err (OpenFault.BadStore at)
        → Each (D.view disk.old).reads (HasNoFront at) }
    ensures never { result ≢ Err OpenFault.NotEmpty }
    ensures reads { OnlyReads (D.view disk.old) (D.view disk.new) }
    ensures reached { IfOk result
        (λ f. (D.view disk.new).reached ≤ max (D.view disk.old).reached f.first) }
    ensures bad_reached { (at : ℕ) → result ≡ Err (OpenFault.BadStore at)
        → (D.view disk.new).reached
        ≤ max (D.view disk.old).reached (max (MOST_HEAD + HEAD) (at + AREA)) }
    ensures no_further { Each (D.view disk.old).reads
        (ReadsOnlyFront (D.view disk.old).reached (D.view disk.new).reached) }
    ensures most { AtMost 6 (D.view disk.old).calls (D.view disk.new).calls }
    ensures cause { FaultsAsSaid open_failed (D.view disk.old).faults
        (D.view disk.new).faults result }
{
    let bytes = header_at(disk)?;
    if !has_magic(&bytes) {
        return Err(OpenFault::BadStore { at: 0 });
    }
    let guid = guid_of(&bytes);
    if bytes[4] != 2 {
        return Ok(Front {
            guid,
            later: None,
            first: HEADER,
            count: 0,
            base: None,
        });
    }
    later_at(alloc, disk, len, guid, PAGE * u64::from(pages_of(&bytes)))
}

// The same of a store of version 2, whose head stands there.
fn later_at<D: Disk>(
    alloc: Global,
    disk: &mut D,
    len: u64,
    guid: Guid,
    head: u64,
) -> Result<Front, OpenFault>
    requires bound { len ≤ MAX_DISK }
    requires length { Each (D.view disk.old).reads (λ c. len ≡ length c) }
    requires later { Each (D.view disk.old).reads IsLater }
    requires guid { Each (D.view disk.old).reads (λ c. part 8 16 c ≡ swapped guid.0) }
    requires head { Each (D.view disk.old).reads (λ c. head ≡ head_of c) }
    requires far { head ≤ MOST_HEAD }
    ensures front { IfOk result (λ f. IsFrontOf (D.view disk.old).reads f.guid.0 f.later f.first
        f.count (option_map (λ v. v.items) f.base)) }
    ensures within { IfOk result (λ f. f.first < len) }
    ensures laid { IfOk result (λ f. IsWithinStore f.later f.first) }
    ensures counted { IfOk result (λ f. f.count ≤ MOST_COUNT) }
    ensures bad { (at : ℕ) → result ≡ Err (OpenFault.BadStore at)
        → Each (D.view disk.old).reads (HasNoFront at) }
    ensures never { result ≢ Err OpenFault.NotEmpty }
    ensures reads { OnlyReads (D.view disk.old) (D.view disk.new) }
    ensures reached { IfOk result
        (λ f. (D.view disk.new).reached ≤ max (D.view disk.old).reached f.first) }
    ensures bad_reached { (at : ℕ) → result ≡ Err (OpenFault.BadStore at)
        → (D.view disk.new).reached
        ≤ max (D.view disk.old).reached (max (MOST_HEAD + HEAD) (at + AREA)) }
    ensures no_further { Each (D.view disk.old).reads
        (ReadsOnlyFront (D.view disk.old).reached (D.view disk.new).reached) }
    ensures most { AtMost 5 (D.view disk.old).calls (D.view disk.new).calls }
    ensures cause { FaultsAsSaid open_failed (D.view disk.old).faults
        (D.view disk.new).faults result }
{
    let layout = head_at(disk, len, head)?;
    let (count, base) = area_at(alloc, disk, len, layout)?;
    Ok(Front {
        guid,
        later: Some(layout),
        first: layout.place + AREA + base.len() as u64,
        count,
        base: Some(base),
    })
}

// How a store of version 2 lies, by its head.
fn head_at<D: Disk>(disk: &mut D, len: u64, head: u64) -> Result<Layout, OpenFault>
    requires bound { len ≤ MAX_DISK }
    requires length { Each (D.view disk.old).reads (λ c. len ≡ length c) }
    requires later { Each (D.view disk.old).reads IsLater }
    requires head { Each (D.view disk.old).reads (λ c. head ≡ head_of c) }
    requires far { head ≤ MOST_HEAD }
    ensures laid { IfOk result (λ l. Each (D.view disk.old).reads (λ c. layout_of c ≡ l)) }
    ensures stands { IfOk result (λ l. l.head ≡ head) }
    ensures low { OnOk result (PAGE ≤ head) }
    ensures inside { OnOk result (head + HEAD ≤ len) }
    ensures bad { (at : ℕ) → result ≡ Err (OpenFault.BadStore at)
        → Each (D.view disk.old).reads (HasNoFront at) }
    ensures never { result ≢ Err OpenFault.NotEmpty }
    ensures reads { OnlyReads (D.view disk.old) (D.view disk.new) }
    ensures reached { (D.view disk.new).reached ≤ max (D.view disk.old).reached (head + HEAD) }
    ensures no_further { Each (D.view disk.old).reads
        (ReadsOnlyFront (D.view disk.old).reached (D.view disk.new).reached) }
    ensures most { AtMost 2 (D.view disk.old).calls (D.view disk.new).calls }
    ensures cause { FaultsAsSaid open_failed (D.view disk.old).faults
        (D.view disk.new).faults result }
{
    if head < PAGE || len < head + HEAD {
        return Err(OpenFault::BadStore { at: 4 });
    }
    let second = byte_at(disk, head)? == 1;
    let place = long_at(disk, place_told(head, second))?;
    Ok(Layout {
        head,
        place,
        second,
    })
}

// The count and the base of the area in use.
fn area_at<D: Disk>(
    alloc: Global,
    disk: &mut D,
    len: u64,
    layout: Layout,
) -> Result<(u64, Vec<u8>), OpenFault>
    requires bound { len ≤ MAX_DISK }
    requires length { Each (D.view disk.old).reads (λ c. len ≡ length c) }
    requires later { Each (D.view disk.old).reads IsLater }
    requires laid { Each (D.view disk.old).reads (λ c. layout_of c ≡ layout) }
    requires low { PAGE ≤ layout.head }
    requires inside { layout.head + HEAD ≤ len }
    ensures area { IfOk result (λ a. Each (D.view disk.old).reads
        (λ c. part layout.place (AREA + length a.1.items) c ≡ area a.0 a.1.items)) }
    ensures behind { OnOk result (layout.head + HEAD ≤ layout.place) }
    ensures within { IfOk result (λ a. layout.place + AREA + length a.1.items < len) }
    ensures counted { IfOk result (λ a. a.0 ≤ MOST_COUNT) }
    ensures small { IfOk result (λ a. length a.1.items ≤ MAX_BASE) }
    ensures bad { (at : ℕ) → result ≡ Err (OpenFault.BadStore at)
        → Each (D.view disk.old).reads (HasNoFront at) }
    ensures never { result ≢ Err OpenFault.NotEmpty }
    ensures reads { OnlyReads (D.view disk.old) (D.view disk.new) }
    ensures reached { IfOk result (λ a. (D.view disk.new).reached
        ≤ max (D.view disk.old).reached (layout.place + AREA + length a.1.items)) }
    ensures bad_reached { (at : ℕ) → result ≡ Err (OpenFault.BadStore at)
        → (D.view disk.new).reached ≤ max (D.view disk.old).reached (at + AREA) }
    ensures no_further { Each (D.view disk.old).reads
        (ReadsOnlyFront (D.view disk.old).reached (D.view disk.new).reached) }
    ensures most { AtMost 3 (D.view disk.old).calls (D.view disk.new).calls }
    ensures cause { FaultsAsSaid open_failed (D.view disk.old).faults
        (D.view disk.new).faults result }
{
    let head = layout.head;
    let place = layout.place;
    if place < head + HEAD || place > len - 4 {
        return Err(OpenFault::BadStore { at: place });
    }
    let n = number_at(disk, place)?;
    if n < 8 || n > 8 + MAX_BASE as u32 || len - place < 5 + u64::from(n) {
        return Err(OpenFault::BadStore { at: place });
    }
    let count = long_at(disk, place + 4)?;
    if count > MOST_COUNT {
        return Err(OpenFault::BadStore { at: place });
    }
    let base = bytes_at(alloc, disk, place + AREA, (n - 8) as usize)?;
    Ok((count, base))
}
