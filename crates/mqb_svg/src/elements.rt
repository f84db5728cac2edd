use crate::fates::Fate;
use crate::marks::Mark;
use crate::sides::Side;
use mqb_base::Bytes;

/// What a row of a picture shows, and the line of the script that it is about.
#[derive(Drop)]
pub enum Element {
    /// A packet that came or was lost, and what was said of it.
    Arrow {
        line: usize,
        from: Side,
        number: usize,
        fate: Fate,
        mark: Mark,
        text: Bytes,
    },
    /// What a manager answered.
    Note {
        line: usize,
        side: Side,
        mark: Mark,
        text: Bytes,
    },
    /// What concerns both managers.
    Bar {
        line: usize,
        text: Bytes,
    },
    /// The line with which a replay was given up.
    End {
        text: Bytes,
    },
}
