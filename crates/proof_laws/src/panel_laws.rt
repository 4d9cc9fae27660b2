//! What is proved of a panel that is wired for a chart, and read back.
//!
//! The reader proposes a draft of a chart, and its own contracts say what it reads off the wires and the jacks of any panel. Here this is put
//! beside the wiring table: which wires and jacks a lawful chart asks for, by any of its plans.

mod laws;

pub use laws::texts_of_cards_are_read;
