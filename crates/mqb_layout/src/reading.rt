ghost use Rattle.std.specs.Prelude.{◌≡◌, ◌+◌, ◌^◌, ◌<◌, ◌≤◌, max, ℕ, ◌∷◌, ◌++◌, length, take, drop};
ghost use Rattle.std.specs.Prelude.{IfOk, OnOk};
ghost use Rattle.mqb_fields.specs.Reading.{number_of};
ghost use Rattle.mqb_fields.specs.Writing.{bytes_of};
ghost use Rattle.mqb_outside.specs.Faults.{HasCause};
ghost use Rattle.mqb_outside.specs.Images.{Each};
ghost use Rattle.mqb_outside.specs.Disk.{OnlyReads, Counted};
ghost use Rattle.mqb_layout.specs.Store.{part};
ghost use Rattle.mqb_layout.specs.Gates.{HasGate};

use mqb_base::Failed;
use mqb_outside::Disk;

/// The byte at a place.
#[tactic(auto, using(crate::proofs::Places::read_byte))]
pub fn byte_at<D: Disk>(disk: &mut D, at: u64) -> Result<u8, Failed>
    requires { Each (D.view disk.old).reads (λ c. at < length c) }
    ensures byte { IfOk result
        (λ byte. Each (D.view disk.old).reads (λ c. drop at c ≡ byte ∷ drop (at + 1) c)) }
    ensures reads { OnlyReads (D.view disk.old) (D.view disk.new) }
    ensures reached { (D.view disk.new).reached ≤ max (D.view disk.old).reached (at + 1) }
    ensures calls { Counted 1 (D.view disk.old).calls (D.view disk.new).calls }
    ensures cause { HasCause (D.view disk.old).faults (D.view disk.new).faults result }
{
    let mut buf = [0];
    disk.read_at(at, &mut buf)?;
    Ok(buf[0])
}

/// Whether the gate at this place is open.
pub fn is_open_at<D: Disk>(disk: &mut D, gate: u64) -> Result<bool, Failed>
    requires { Each (D.view disk.old).reads (λ c. gate < length c) }
    ensures gate { IfOk result (λ is_open. Each (D.view disk.old).reads (HasGate gate is_open)) }
    ensures reads { OnlyReads (D.view disk.old) (D.view disk.new) }
    ensures reached { (D.view disk.new).reached ≤ max (D.view disk.old).reached (gate + 1) }
    ensures calls { Counted 1 (D.view disk.old).calls (D.view disk.new).calls }
    ensures cause { HasCause (D.view disk.old).faults (D.view disk.new).faults result }
{
    Ok(byte_at(disk, gate)? == 1)
}

#[tactic(auto, using(std::proofs::lemmas::Nat::le_bytes_4, crate::proofs::Places::number_is))]
fn number_of(bytes: [u8; 4]) -> u32
    ensures spelled { bytes_of 4 result ≡ bytes }
    ensures number { result ≡ number_of 4 bytes }
{
    u32::from_le_bytes(bytes)
}

/// The number in the four bytes at a place.
#[tactic(auto, using(crate::proofs::Places::read_number))]
pub fn number_at<D: Disk>(disk: &mut D, at: u64) -> Result<u32, Failed>
    requires { Each (D.view disk.old).reads (λ c. at + 4 ≤ length c) }
    ensures spelled { IfOk result
        (λ n. Each (D.view disk.old).reads (λ c. drop at c ≡ bytes_of 4 n ++ drop (at + 4) c)) }
    ensures number { IfOk result
        (λ n. Each (D.view disk.old).reads (λ c. n ≡ number_of 4 (drop at c))) }
    ensures reads { OnlyReads (D.view disk.old) (D.view disk.new) }
    ensures reached { (D.view disk.new).reached ≤ max (D.view disk.old).reached (at + 4) }
    ensures calls { Counted 1 (D.view disk.old).calls (D.view disk.new).calls }
    ensures cause { HasCause (D.view disk.old).faults (D.view disk.new).faults result }
{
    let mut buf = [0; 4];
    disk.read_at(at, &mut buf)?;
    Ok(number_of(buf))
}

/// Reads n bytes and the gate behind them into the front of a buffer, and answers
/// whether that is open.
pub fn fill<D: Disk>(disk: &mut D, at: u64, n: usize, buffer: &mut [u8]) -> Result<bool, Failed>
    requires there { Each (D.view disk.old).reads (λ c. at + n < length c) }
    requires room { n < length buffer.old }
    ensures bytes { OnOk result
        (Each (D.view disk.old).reads (λ c. drop at c ≡ take n buffer.new ++ drop (at + n) c)) }
    ensures gate { IfOk result
        (λ is_open. Each (D.view disk.old).reads (HasGate (at + n) is_open)) }
    ensures reads { OnlyReads (D.view disk.old) (D.view disk.new) }
    ensures reached { (D.view disk.new).reached ≤ max (D.view disk.old).reached (at + n + 1) }
    ensures calls { Counted 1 (D.view disk.old).calls (D.view disk.new).calls }
    ensures cause { HasCause (D.view disk.old).faults (D.view disk.new).faults result }
{
    disk.read_at(at, &mut buffer[..n + 1])?;
    Ok(buffer[n] == 1)
}

/// The first bytes of a store.
#[tactic(auto, using(crate::specs::lemmas::Reading::read_split))]
pub fn header_at<D: Disk>(disk: &mut D) -> Result<[u8; 24], Failed>
    requires { Each (D.view disk.old).reads (λ c. 24 ≤ length c) }
    ensures header { IfOk result
        (λ bytes. Each (D.view disk.old).reads (λ c. take 24 c ≡ bytes)) }
    ensures reads { OnlyReads (D.view disk.old) (D.view disk.new) }
    ensures reached { (D.view disk.new).reached ≤ max (D.view disk.old).reached 24 }
    ensures calls { Counted 1 (D.view disk.old).calls (D.view disk.new).calls }
    ensures cause { HasCause (D.view disk.old).faults (D.view disk.new).faults result }
{
    let mut bytes = [0; 24];
    disk.read_at(0, &mut bytes)?;
    Ok(bytes)
}

/// The number in the eight bytes at a place.
pub fn long_at<D: Disk>(disk: &mut D, at: u64) -> Result<u64, Failed>
    requires { Each (D.view disk.old).reads (λ c. at + 8 ≤ length c) }
    ensures spelled { IfOk result
        (λ n. Each (D.view disk.old).reads (λ c. part at 8 c ≡ bytes_of 8 n)) }
    ensures range { IfOk result (λ n. n < 2 ^ 64) }
    ensures reads { OnlyReads (D.view disk.old) (D.view disk.new) }
    ensures reached { (D.view disk.new).reached ≤ max (D.view disk.old).reached (at + 8) }
    ensures calls { Counted 1 (D.view disk.old).calls (D.view disk.new).calls }
    ensures cause { HasCause (D.view disk.old).faults (D.view disk.new).faults result }
{
    let mut buf = [0; 8];
    disk.read_at(at, &mut buf)?;
    Ok(long_of(buf))
}

fn long_of(bytes: [u8; 8]) -> u64
    ensures { bytes_of 8 result ≡ bytes }
{
    u64::from_le_bytes(bytes)
}
