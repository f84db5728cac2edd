//! What the last restart left of a disk. Proofs alone read it: it takes no memory, and what makes
//! it does nothing at run time.
ghost use Rattle.std.specs.Prelude.{◌≡◌, ℕ, List, Option, Some, None};
ghost use Rattle.std.specs.Borrow.{ftrue};

use crate::image::Image;
use std::fmt;
use std::marker::Model;

/// What the last restart left, where there was one.
#[derive(Drop)]
pub(crate) struct LastLeft {
    pub(crate) ghost contents: { Option (List ℕ) },
}

impl Model for LastLeft {
    ghost also_owns = { λ _. ftrue };
}

impl LastLeft {
    /// Before any restart.
    pub(crate) fn none() -> LastLeft
        ensures { result.contents ≡ None }
    {
        LastLeft {}
    }

    /// After one that left this.
    pub(crate) fn of(_image: &Image) -> LastLeft
        ensures { result.contents ≡ Some _image.now.contents }
    {
        LastLeft {}
    }
}

impl fmt::Debug for LastLeft {
    fn fmt<W: fmt::Write>(&self, f: &mut fmt::Formatter<W>) -> fmt::Result {
        f.write_str("LastLeft")
    }
}
