//! Blocks one behind the other, each at the least place that its alignment allows: members stacked in cells, cells in the order of their
//! ranks, and rows of an image, which are segments one behind the other, in each its output sections by rank, and behind them the tables
//! of `__LINKEDIT`.
#![tactic(auto)]

mod linkedit;
mod members;
mod place;
mod rows;

pub use linkedit::tables;
pub use members::{Extent, Member, PlacedMember, Stacked, aligned, stack};
pub use place::{Cell, PlacedCell, place_ranks, starts};
pub use rows::{CLASSES, FILLED_CLASSES, Row, Rows, place_rows};
