ghost use Rattle.std.specs.Prelude.{◌≡◌, ◌==◌, ℕ, List, IfOk};
ghost use Rattle.std.specs.Cmp.{partial_equiv_from_equiv};
ghost use Rattle.std.specs.Cmp.Lexicographic.{pointwise, nat_list_eq_equiv};
ghost use Rattle.std.specs.Rc.{rc_slice_items};

use crate::answers::Memory;
use std::alloc::{AllocError, Global};
use std::marker::Model;
use std::rc::RcSlice;

/// A list of bytes, such as a body or an extension. Contracts see the list. A clone shares the
/// bytes, so a message is copied without its body.
#[derive(Debug, Drop)]
pub struct Bytes {
    items: RcSlice<u8>,
}

impl Model for Bytes {
    ghost Value = { List ℕ };

    ghost view = { λ b. rc_slice_items b.items };
}

impl Bytes {
    /// A copy of a slice.
    pub fn from_slice(alloc: Global, bytes: &[u8]) -> Result<Bytes, Memory>
        ensures { IfOk result (λ copy. copy ≡ bytes.now) }
    {
        Ok(Bytes {
            items: RcSlice::from_slice(alloc, bytes)?,
        })
    }

    pub fn as_slice(&self) -> &[u8]
        ensures { result.now ≡ self.now }
    {
        self.items.as_slice()
    }
}

impl Clone for Bytes {
    ghost is_clone = { λ old copy. copy ≡ old };

    fn clone(&self) -> Result<Bytes, AllocError> {
        Ok(Bytes {
            items: self.items.clone()?,
        })
    }
}

impl PartialEq for Bytes {
    ghost eq = { pointwise ◌==◌ };

    ghost laws = { partial_equiv_from_equiv nat_list_eq_equiv };

    fn eq(&self, other: &Self) -> bool {
        self.items.as_slice() == other.items.as_slice()
    }
}

impl Eq for Bytes {
    ghost laws = { nat_list_eq_equiv };
}
