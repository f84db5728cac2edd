ghost use Rattle.std.specs.Prelude.{◌≡◌, ◌<◌, ◌≤◌, ℕ, not, IfSome};
ghost use Rattle.mqb_outside.specs.declared.disk.TheConstants.{MAX_DISK};
ghost use Rattle.mqb_layout.specs.Store.{place_told};
ghost use Rattle.mqb_layout.specs.Layouts.{IsWithinStore, head_behind, layout_then};
ghost use Rattle.mqb_layout.specs.Checkpoints.{block_place, mark_place, switch_place, switch_byte};

use crate::limits::{AREA, HEAD, PAGE};

/// Where a store of version 2 has its head, and the area in use, and whether that is the second.
#[derive(Clone, Copy, Debug, PartialEq, Eq)]
pub struct Layout {
    pub head: u64,
    pub place: u64,
    pub second: bool,
}

/// Where the head of a store is written that has none: the page behind its closed gate.
pub fn head_behind(end: u64) -> u64
    requires { end < MAX_DISK }
    ensures { result ≡ head_behind end }
{
    (end + PAGE) / PAGE * PAGE
}

/// How a store lies after a base of so many bytes.
pub fn layout_then(later: Option<Layout>, end: u64, base: u64) -> Layout
    requires bound { end < MAX_DISK }
    requires within { IsWithinStore later end }
    requires small { base < MAX_DISK }
    ensures { result ≡ layout_then later end base }
{
    match later {
        None => {
            let head = head_behind(end);
            Layout {
                head,
                place: head + HEAD,
                second: false,
            }
        }
        Some(l) => {
            let behind = l.head + HEAD;
            let place = if behind + AREA + base + 1 <= l.place {
                behind
            } else {
                end + 1
            };
            Layout {
                head: l.head,
                place,
                second: !l.second,
            }
        }
    }
}

/// Where a checkpoint writes first.
pub fn block_place(later: Option<Layout>, end: u64, next: Layout) -> u64
    requires bound { end < MAX_DISK }
    ensures { (base : ℕ) → next ≡ layout_then later end base → result ≡ block_place later end base }
{
    match later {
        None => end + 1,
        Some(_) => next.place,
    }
}

/// Where a head tells the place of an area: of the second, or of the first.
pub fn place_told(head: u64, second: bool) -> u64
    requires { head ≤ MAX_DISK }
    ensures { result ≡ place_told head second }
{
    head + if second { 9 } else { 1 }
}

/// Where it writes beside that.
pub fn mark_place(later: Option<Layout>) -> u64
    requires { IfSome later (λ l. l.head ≤ MAX_DISK) }
    ensures { result ≡ mark_place later }
{
    match later {
        None => 5,
        Some(l) => place_told(l.head, !l.second),
    }
}

/// Where the byte stands that switches over.
pub fn switch_place(later: Option<Layout>) -> u64
    ensures { result ≡ switch_place later }
{
    match later {
        None => 4,
        Some(l) => l.head,
    }
}

/// That byte.
pub fn switch_byte(later: Option<Layout>) -> u8
    ensures { result ≡ switch_byte later }
{
    match later {
        None => 2,
        Some(l) => u8::from(!l.second),
    }
}
