ghost use Rattle.std.specs.Prelude.{◌≡◌, ◌<◌, ◌≤◌, ◌*◌, ◌^◌};
ghost use Rattle.mqb_heads.specs.Flags.{bit, bits, flag, placed};

/// Whether a bit is set.
pub(crate) fn bit(word: u32, index: u32) -> bool
    requires { index < 32 }
    ensures { result ≡ bit index word }
{
    word >> index & 1 == 1
}

/// `count` bits, from one on.
pub(crate) fn bits(word: u32, from: u32, count: u32) -> u8
    requires from { from < 32 }
    requires count { count < 8 }
    ensures { result ≡ bits from count word }
{
    (word >> from & ((1 << count) - 1)) as u8
}

/// A word with this bit, if it is set.
pub(crate) fn flag(index: u32, set: bool) -> u32
    requires { index < 8 }
    ensures flag { result ≡ flag index set }
    ensures most { result ≤ 128 }
{
    if set { 1 << index } else { 0 }
}

/// A word with a number in the bits from one on.
pub(crate) fn placed(from: u32, number: u8) -> u32
    requires { from < 16 }
    ensures placed { result ≡ placed from number }
    ensures most { result ≤ 255 * 2 ^ from }
{
    u32::from(number) << from
}
