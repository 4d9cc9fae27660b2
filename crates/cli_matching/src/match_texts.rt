//! What is found of a setup beside a chart, as text.
//!
//! [`match_text`] tells the plan, a line for each total. Where the setup is not wired for the chart by it, what is missing follows under the
//! lines of the chart that ask for it, each with the sentence of its row in a legend, and then what is extra; wires, jacks and stops are
//! spelled as in a wiring chart. [`told_text`] tells besides how far such a setup is, or gives a hint of it alone. [`told_counts`] are the numbers
//! of the fault.

mod counts;
mod missing;
mod numbers;
mod plan;
mod progress;
mod telling;
mod text;

pub use counts::{Counts, told_counts};
pub use progress::told_text;
pub use telling::Telling;
pub use text::match_text;
