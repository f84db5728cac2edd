ghost use Rattle.std.specs.Prelude.{◌≡◌, ◌≢◌, ◌+◌, ◌<◌, ◌≤◌, max, ℕ, length, vec_len, take};
ghost use Rattle.std.specs.Prelude.{Err, IfOk};
ghost use Rattle.mqb_outside.specs.Images.{Each};
ghost use Rattle.mqb_outside.specs.Disk.{OnlyReads, AtMost};
ghost use Rattle.mqb_outside.specs.declared.disk.TheConstants.{MAX_DISK};
ghost use Rattle.mqb_layout.specs.Store.{part};
ghost use Rattle.mqb_layout.specs.Gates.{IsOpenAt, HasGate};
ghost use Rattle.mqb_journal.specs.Scan.{HasNext, IsBadAt, ReadsOnlyAt};
ghost use Rattle.mqb_journal.specs.Causes.{FaultsAsSaid, open_failed, scan_failed};

use crate::faults::{OpenFault, ScanFault};
use crate::limits::MAX_RECORD;
use mqb_base::Memory;
use mqb_layout::{fill, number_at};
use mqb_outside::Disk;
use std::alloc::Global;

/// A buffer for the longest record and a gate.
pub(crate) fn reserve(alloc: Global) -> Result<Vec<u8>, Memory>
    ensures { IfOk result (λ buffer. vec_len buffer ≡ MAX_RECORD + 1) }
{
    zeros(alloc, MAX_RECORD + 1)
}

fn zeros(alloc: Global, n: usize) -> Result<Vec<u8>, Memory>
    ensures { IfOk result (λ buffer. vec_len buffer ≡ n) }
{
    Ok(Vec::from_elem(alloc, 0, n)?)
}

/// So many bytes from a place on.
pub(crate) fn bytes_at<D: Disk>(
    alloc: Global,
    disk: &mut D,
    at: u64,
    n: usize,
) -> Result<Vec<u8>, OpenFault>
    requires { Each (D.view disk.old).reads (λ c. at + n ≤ length c) }
    ensures bytes { IfOk result
        (λ v. Each (D.view disk.old).reads (λ c. v.items ≡ part at n c)) }
    ensures length { IfOk result (λ v. length v.items ≡ n) }
    ensures never { (at : ℕ) → result ≢ Err (OpenFault.BadStore at) }
    ensures stranger { result ≢ Err OpenFault.NotEmpty }
    ensures reads { OnlyReads (D.view disk.old) (D.view disk.new) }
    ensures reached { (D.view disk.new).reached ≤ max (D.view disk.old).reached (at + n) }
    ensures most { AtMost 1 (D.view disk.old).calls (D.view disk.new).calls }
    ensures cause { FaultsAsSaid open_failed (D.view disk.old).faults
        (D.view disk.new).faults result }
{
    let mut bytes = zeros(alloc, n)?;
    disk.read_at(at, &mut bytes)?;
    Ok(bytes)
}

/// Reads the record behind this open gate into the front of a buffer, with the gate behind it.
/// Answers its length, and whether that gate is open. The disk has `len` bytes.
pub(crate) fn read_next<D: Disk>(
    disk: &mut D,
    gate: u64,
    len: u64,
    buffer: &mut [u8],
) -> Result<(u32, bool), ScanFault>
    requires bound { len ≤ MAX_DISK }
    requires within { gate < len }
    requires length { Each (D.view disk.old).reads (λ c. len ≡ length c) }
    requires opened { Each (D.view disk.old).reads (IsOpenAt gate) }
    requires room { MAX_RECORD < length buffer.old }
    ensures next { IfOk result
        (λ next. Each (D.view disk.old).reads (HasNext gate (take next.0 buffer.new))) }
    ensures gate { IfOk result
        (λ next. Each (D.view disk.old).reads (HasGate (gate + 5 + next.0) next.1)) }
    ensures small { IfOk result (λ next. next.0 ≤ MAX_RECORD) }
    ensures behind { IfOk result (λ next. gate + 5 + next.0 < len) }
    ensures bad { (at : ℕ) → result ≡ Err (ScanFault.BadStore at)
        → (at ≡ gate) × Each (D.view disk.old).reads (IsBadAt gate) }
    ensures reads { OnlyReads (D.view disk.old) (D.view disk.new) }
    ensures reached { IfOk result (λ next.
        (D.view disk.new).reached ≤ max (D.view disk.old).reached (gate + 6 + next.0)) }
    ensures bad_reached { (at : ℕ) → result ≡ Err (ScanFault.BadStore at)
        → (D.view disk.new).reached ≤ max (D.view disk.old).reached (gate + 5) }
    ensures furthest { (D.view disk.new).reached
        ≤ max (D.view disk.old).reached (gate + 6 + MAX_RECORD) }
    ensures no_further { Each (D.view disk.old).reads
        (ReadsOnlyAt gate (D.view disk.old).reached (D.view disk.new).reached) }
    ensures most { AtMost 2 (D.view disk.old).calls (D.view disk.new).calls }
    ensures cause { FaultsAsSaid scan_failed (D.view disk.old).faults
        (D.view disk.new).faults result }
{
    if len - gate < 6 {
        return Err(ScanFault::BadStore { at: gate });
    }
    let n = number_at(disk, gate + 1)?;
    if n > MAX_RECORD as u32 || len - gate < 6 + u64::from(n) {
        return Err(ScanFault::BadStore { at: gate });
    }
    let is_open = fill(disk, gate + 5, n as usize, buffer)?;
    Ok((n, is_open))
}
