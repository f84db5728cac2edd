ghost use Rattle.std.specs.Prelude.{◌≡◌, ◌+◌, ◌≤◌, take, if◌then◌else◌};
ghost use Rattle.std.specs.List.{All};
ghost use Rattle.mqb_disk.specs.Extent.{standing};
ghost use Rattle.mqb_disk.specs.Picks.{begun, stands, reached, left_of, left_by, lies_within};

use crate::image::Image;
use mqb_outside::Pick;

/// What was done to a disk and is not synced.
#[derive(Clone, Copy, Debug, PartialEq, Eq)]
pub(crate) enum Change {
    Wrote { at: usize, len: usize },
    Cut { len: usize },
}

/// Makes a write of an image that was safe, as far as the pick says. `now` has the
/// bytes that were written.
fn write_again(image: &mut Image, now: &Image, at: usize, len: usize, pick: Pick)
    requires room { image.old.room ≡ now.now.room }
    requires fits { at + len ≤ image.old.room }
    ensures left { image.new.contents
        ≡ reached at (begun pick at len (standing now.now)) image.old.contents }
    ensures room { image.new.room ≡ image.old.room }
{
    if at > image.len() {
        return;
    }
    match pick {
        Pick::Old => {}
        Pick::New => image.take_range(now, at, len),
        Pick::Half => image.take_range(now, at, len / 2),
        Pick::Ones => image.fill_range(at, len),
    }
}

/// Makes a cut of an image that was safe, where the pick lets it stand.
fn cut_again(image: &mut Image, len: usize, pick: Pick)
    ensures left { image.new.contents
        ≡ if stands pick then take len image.old.contents else image.old.contents }
    ensures room { image.new.room ≡ image.old.room }
{
    if matches!(pick, Pick::New | Pick::Ones) && len <= image.len() {
        image.cut(len);
    }
}

fn make(image: &mut Image, now: &Image, change: Change, pick: Pick)
    requires room { image.old.room ≡ now.now.room }
    requires fits { lies_within image.old.room change }
    ensures left { image.new.contents ≡ left_of pick (standing now.now) change image.old.contents }
    ensures room { image.new.room ≡ image.old.room }
{
    match change {
        Change::Wrote { at, len } => write_again(image, now, at, len, pick),
        Change::Cut { len } => cut_again(image, len, pick),
    }
}

/// Makes of an image that was safe what a crash leaves after these changes, by this pick.
pub(crate) fn replay(image: &mut Image, now: &Image, changes: &[Change], pick: Pick)
    requires room { image.old.room ≡ now.now.room }
    requires fit { All (lies_within image.old.room) changes.now }
    ensures left { image.new.contents
        ≡ left_by pick (standing now.now) changes.now image.old.contents }
    ensures room { image.new.room ≡ image.old.room }
{
    for change in changes {
        make(image, now, *change, pick);
    }
}
