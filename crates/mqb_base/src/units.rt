ghost use Rattle.std.specs.Prelude.{◌≡◌, ◌==◌, ℕ, List, IfOk};
ghost use Rattle.std.specs.Cmp.{partial_equiv_from_equiv};
ghost use Rattle.std.specs.Cmp.Lexicographic.{pointwise, nat_list_eq_equiv};

use crate::answers::Memory;
use std::alloc::{AllocError, Global};
use std::marker::Model;

/// A list of UTF-16 units, such as a label. Contracts see the list.
#[derive(Debug, Drop)]
pub struct Units {
    items: Vec<u16>,
}

impl Model for Units {
    ghost Value = { List ℕ };

    ghost view = { λ u. u.items.items };
}

impl Units {
    /// A copy of a slice.
    pub fn from_slice(alloc: Global, units: &[u16]) -> Result<Units, Memory>
        ensures { IfOk result (λ copy. copy ≡ units.now) }
    {
        Ok(Units {
            items: Vec::from_slice(alloc, units)?,
        })
    }

    pub fn as_slice(&self) -> &[u16]
        ensures { result.now ≡ self.now }
    {
        self.items.as_slice()
    }
}

impl Clone for Units {
    ghost is_clone = { λ old copy. copy ≡ old };

    fn clone(&self) -> Result<Units, AllocError> {
        Ok(Units {
            items: self.items.clone()?,
        })
    }
}

impl PartialEq for Units {
    ghost eq = { pointwise ◌==◌ };

    ghost laws = { partial_equiv_from_equiv nat_list_eq_equiv };

    fn eq(&self, other: &Self) -> bool {
        self.items.as_slice() == other.items.as_slice()
    }
}

impl Eq for Units {
    ghost laws = { nat_list_eq_equiv };
}
