//! The carriage: it moves the form, and says where a printing cycle's line stands.
//!
//! [`Carriage`] is the unit of the machine. A line that is printed at its place is a [`PlacedLine`], of `page_text`.
#![tactic(auto)]

mod asked;
mod carriage;
mod laws;
mod spot;

pub use carriage::Carriage;
pub use laws::{going_down_notices_the_overflow_line, skips_go_to_the_next_stop_below};
pub use page_text::placed_lines::PlacedLine;
