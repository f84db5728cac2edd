ghost use Rattle.std.specs.Prelude.{◌≡◌, ◌≢◌, ◌+◌, ◌<◌, ◌≤◌, [], ◌∷◌, ◌++◌, true, false, take};
ghost use Rattle.std.specs.Prelude.{drop, slice_index};
ghost use Rattle.mqb_fields.specs.Reading.{number_of};
ghost use Rattle.mqb_fields.specs.Guids.{swapped};
ghost use Rattle.mqb_layout.specs.Store.{MAGIC, header, part};

use mqb_base::Guid;

/// An empty store: the header, and a closed gate.
pub fn empty_store(guid: Guid) -> [u8; 25]
    ensures { result ≡ header guid.0 ++ 0 ∷ [] }
{
    let g = guid.0;
    [
        0x4d, 0x51, 0x42, 0x4a, 1, 0, 0, 0, g[3], g[2], g[1], g[0], g[5], g[4], g[7], g[6], g[8],
        g[9], g[10], g[11], g[12], g[13], g[14], g[15], 0,
    ]
}

/// Whether these bytes begin a store.
pub fn has_magic(bytes: &[u8; 24]) -> bool
    ensures yes { result ≡ true → take 4 bytes.now ≡ MAGIC }
    ensures no { result ≡ false → take 4 bytes.now ≢ MAGIC }
{
    bytes[..4] == [0x4d, 0x51, 0x42, 0x4a]
}

/// The GUID in a header.
pub fn guid_of(bytes: &[u8; 24]) -> Guid
    ensures { part 8 16 bytes.now ≡ swapped result.0 }
{
    let b = bytes;
    Guid([
        b[11], b[10], b[9], b[8], b[13], b[12], b[15], b[14], b[16], b[17], b[18], b[19], b[20],
        b[21], b[22], b[23],
    ])
}

/// In how many pages the head stands, in a header of version 2.
pub fn pages_of(bytes: &[u8; 24]) -> u32
    ensures number { result ≡ number_of 3 (drop 5 bytes.now) }
    ensures small { result < 16777216 }
{
    let [_, _, _, _, _, low, middle, high, ..] = *bytes;
    u32::from_le_bytes([low, middle, high, 0])
}
