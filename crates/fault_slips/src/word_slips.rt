//! The entry of a line that no form of a chart derives, with a mark under the first word that no form has behind those before it.
//!
//! [`write_misread_entry`] follows the words of the line from the first one on, as long as some form of version 2 goes on with them. It marks the
//! word at which all forms end and tells what belongs there; of a line that is a front of a form it marks the last word, and tells what belongs
//! behind it. Of a line with all words of a form it marks a word behind which a space is missing, or COUPLED, which version 1 doesn't have.
//! Where the bytes of the line tell a slip or the first word begins no form, it writes what `line_slips` tells.
//!
//! `specs/Stages.antt` says how forms go on, `Halts.antt` where a line leaves them, `Phrases.antt` what belongs at each stage, and
//! `Entries.antt` what is told.

mod entry;
mod halt;
mod stage;
mod words;

pub use entry::write_misread_entry;
