ghost use Rattle.std.specs.Prelude.{◌≡◌, ◌+◌, ◌<◌, ◌^◌, ◌++◌, length, slice_get};
ghost use Rattle.std.specs.Prelude.{Some, option_copied};

use std::marker::Model;

/// A list that is lent in two parts. Contracts see it whole.
#[derive(Debug, Drop)]
pub struct SplitSlice<'a, T> {
    front: &'a [T],
    back: &'a [T],
}

impl<'a, T> Model for SplitSlice<'a, T> {
    ghost use Rattle.std.specs.Prelude.{List, ◌+◌, ◌<◌, ◌^◌, ◌++◌, length};

    ghost Value = { List T };

    ghost view = { λ s. s.front.now ++ s.back.now };

    ghost invariant = { λ s. length s.front.now + length s.back.now < 2 ^ 64 };
}

impl<'a, T> SplitSlice<'a, T> {
    pub fn new(front: &'a [T], back: &'a [T]) -> SplitSlice<'a, T>
        requires { length front.now + length back.now < 2 ^ 64 }
        ensures { result ≡ front.now ++ back.now }
    {
        SplitSlice { front, back }
    }

    pub fn len(&self) -> usize
        ensures { result ≡ length self.now }
    {
        self.front.len() + self.back.len()
    }

    /// Both parts.
    pub fn parts(&self) -> (&'a [T], &'a [T])
        ensures parts { self.now ≡ result.0.now ++ result.1.now }
        ensures few { length self.now < 2 ^ 64 }
    {
        (self.front, self.back)
    }

    /// The member at a place.
    #[tactic(auto, using(crate::proofs::Gaps::slice_get_left, crate::proofs::Gaps::slice_get_right))]
    pub fn at(&self, at: usize) -> &'a T
        requires { at < length self.now }
        ensures { slice_get self.now at ≡ Some result.now }
    {
        if at < self.front.len() {
            &self.front[at]
        } else {
            &self.back[at - self.front.len()]
        }
    }

    /// The member at a place, where it is there.
    pub fn get(&self, at: usize) -> Option<&'a T>
        ensures { option_copied result ≡ slice_get self.now at }
    {
        if at < self.len() {
            Some(self.at(at))
        } else {
            None
        }
    }
}
