ghost use Rattle.std.specs.Prelude.{◌≡◌, length};
ghost use Rattle.mqb_fields.specs.Guids.{swapped};

/// The bytes of a GUID from the order of the text to that of the wire, and back.
pub(crate) fn swapped(guid: &[u8]) -> [u8; 16]
    requires { length guid.now ≡ 16 }
    ensures { result ≡ swapped guid.now }
{
    [
        guid[3], guid[2], guid[1], guid[0], guid[5], guid[4], guid[7], guid[6], guid[8], guid[9],
        guid[10], guid[11], guid[12], guid[13], guid[14], guid[15],
    ]
}
