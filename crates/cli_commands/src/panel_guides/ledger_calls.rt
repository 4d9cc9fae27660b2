//! What is told of a wheel of a printed line, as commands: the ledger of its figure, which is the cycles that made the number that a counter
//! group is printed of on it, or its explanation with all that it is printed of; of the run that a planning chart, or a wiring chart,
//! gives of a deck.
//!
//! [`told_ledger`] and [`explained_with_basis`] answer the texts, and [`tell_to_end`] does the whole command: what a [`Question`] asks for is
//! printed, or why it isn't is told on one line.

mod answers;
mod explaining;
mod serving;
mod telling;

pub use answers::told_ledger;
pub use explaining::explained_with_basis;
pub use serving::{print_telling, tell_to_end};
pub use telling::{Question, told_wheel};
