//! What the program is given and what it writes, over any reader and writers: whole texts, the commands by their words, and the
//! answers of commands.
//!
//! [`read_whole`] reads a text to its end and [`chart_and_deck`] divides a text that has a chart and then its deck, as standard input
//! does. [`put`] writes an answer, [`LentReader`] and [`LentWriter`] lend a reader and a writer to what is printed card by card, and
//! [`write_printable`] writes what somebody handed in. Each says what is told where its reader or writer fails.

mod command;
mod input;
mod lent_reader;
mod lent_writer;
mod output;
mod printable;

pub use command::Command;
pub use input::{chart_and_deck, read_whole};
pub use lent_reader::LentReader;
pub use lent_writer::LentWriter;
pub use output::put;
pub use printable::write_printable;
