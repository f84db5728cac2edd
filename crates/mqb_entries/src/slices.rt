ghost use Rattle.std.specs.Prelude.{◌≡◌, None};
ghost use Rattle.mqb_base.specs.Names.{name_fault};

use mqb_base::Name;
use std::marker::Model;

/// The bytes of a name. Contracts see them.
#[derive(Debug, Drop)]
pub struct NameSlice<'a> {
    bytes: &'a [u8],
}

impl<'a> Model for NameSlice<'a> {
    ghost use Rattle.std.specs.Prelude.{◌≡◌, ℕ, List, None};
    ghost use Rattle.mqb_base.specs.Names.{name_fault};

    ghost Value = { List ℕ };

    ghost view = { λ n. n.bytes.now };

    ghost invariant = { λ n. name_fault n.bytes.now ≡ None };
}

impl<'a> NameSlice<'a> {
    pub fn of(name: &'a Name) -> NameSlice<'a>
        ensures { result ≡ name.now }
    {
        NameSlice {
            bytes: name.as_slice(),
        }
    }

    pub(crate) fn of_bytes(bytes: &'a [u8]) -> NameSlice<'a>
        requires { name_fault bytes.now ≡ None }
        ensures { result ≡ bytes.now }
    {
        NameSlice { bytes }
    }

    pub fn as_slice(&self) -> &'a [u8]
        ensures bytes { result.now ≡ self.now }
        ensures name { name_fault self.now ≡ None }
    {
        self.bytes
    }
}
