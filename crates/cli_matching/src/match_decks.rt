//! Two panels over one deck: the first line that they print differently, and the first wheel of it.

mod lines;
mod running;
mod wheels;

pub use lines::LinePlace;
pub use running::deck_difference;
pub use wheels::Difference;
