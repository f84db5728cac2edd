//! Sequence diagrams between two managers as texts in the language SVG.
//!
//! A picture is a list of elements, one in each row: arrows, marks on the two lifelines, bars.
//! `specs/Svg` has the text of each.
#![tactic(auto)]

mod elements;
mod fates;
mod laws;
mod marks;
mod page;
mod sides;
mod svg;

pub use elements::Element;
pub use fates::Fate;
pub use laws::no_text_is_markup;
pub use marks::Mark;
pub use page::Page;
pub use sides::Side;
pub use svg::{MAX_ELEMENTS, draw};
