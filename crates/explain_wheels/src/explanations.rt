//! Why a wheel of a printed line printed its character.
//!
//! [`explain`] runs a deck up to the cycle that placed the line and tells of that cycle, for each row, one way by which an impulse
//! reached the wheel, hub by hub from an exit that emitted, and which wheel to the left gave it significance. [`find_line`] and
//! [`LineWays`] are its parts, for those who ask for more than one wheel of a line, and [`PageWays`] explains all wheels of a page by one
//! run of the deck.

mod explanation;
mod found;
pub mod laws;
mod lines;
mod page;
mod refusal;
mod rows;
mod significance;

pub use explanation::{Explanation, LineWays, explain};
pub use found::{FoundLine, find_line};
pub use lines::find_lines;
pub use page::PageWays;
pub use refusal::Refusal;
pub use significance::{Giver, Significance, count_received};
