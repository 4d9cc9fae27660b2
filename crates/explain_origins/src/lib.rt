//! From where comes what a wheel is printed of, beside the numbers of counter groups: the texts that storage units hold, the pilots that
//! stand transferred, the balance latches that are set, the program cycle, and the place of the line.
//!
//! [`origins_of`] answers the text for a wheel of a line: since which cycle a storage unit holds its text, a pilot is transferred or a
//! balance latch is set, and by which holes of a card or which number; why the program cycle ran that printed the line, as
//! [`called_by`] tells it alone; and why the line stands where it stands.
#![tactic(auto)]

mod asks;
mod changes;
mod holders;
mod holding;
mod holes;
mod latches;
pub mod laws;
mod levels;
mod pilots;
mod placing;
mod storage;
mod telling;

pub use changes::{PassedCycle, last_move};
pub use holders::Holder;
pub use holes::{Hole, Station, hole_to, is_wired, write_brush, write_column};
pub use levels::called_by;
pub use telling::origins_of;
