//! The program's commands on texts, over any reader and writers, without a word of a command line.
//!
//! [`run_to_end`] runs a deck through a planning chart. [`serve_command`] does one command: it checks a planning chart, wires it or runs a
//! deck through it, replays a deck through a wiring chart, or prints a wiring chart in the second version of its language; [`serve`] does
//! the one that a word names.
//! [`replay_by_orders`] replays a deck with the units served by orders, and tells what was counted.
//! [`chart_and_deck`] divides a text that has both, as standard input does. Why a command was not carried out is a [`Fault`] of the
//! crate `fault_lines`, whose [`tell`] writes it on one line; its status is the program's. The calls that do a command to its end answer beside the
//! status whether that line was written whole, so their contracts say which line that is. This module stands on the compiler's calls, the machine
//! and wiring charts, and on its `program_io` for what is read and written. The program above it reads the words and opens the files.

mod answers;
mod laws;
pub mod orders;
mod replaying;
pub mod replays;
mod running;
pub mod served_replays;
mod serving;

pub use crate::commands::served_replays::{replay_by_orders, replay_by_orders_to_end};
pub use answers::{check, pages, replayed, upgraded, wiring_chart};
pub use fault_lines::faults::{Ending, Fault, tell, unprinted, write_line};
pub use fault_lines::program_io::{Command, chart_and_deck, read_whole};
pub use laws::answered_texts_are_not_refused;
pub use replaying::print_replay;
pub use running::{print_run, run_to_end};
pub use serving::{serve, serve_command, serve_to_end};
