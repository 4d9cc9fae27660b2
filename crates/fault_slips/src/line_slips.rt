//! What is told of a line that no form of a chart derives: the line with a mark, the slip, and what helps.
//!
//! [`write_line_entry`] writes the entry of such a line. The slips that people make most are named: a tab, a
//! comment, quotation marks, a small letter, an apostrophe that isn't closed, a character that is not printed.
//! For a tab a space helps ([`tab_cure`]); else the form of the line's first word, in capital or small letters
//! ([`form_words`]), and a first word that is a letter away from one of those is asked for.
//! [`write_behind_entry`] writes the entry of a line behind END. This module stands on `line_marks` and `chart_lines`,
//! and on no crate that reads charts. [`is_near`] tells whether two words are a letter away from one another.
//!
//! `specs/Slips.antt` says which slip a line has and where, `Forms.antt` has the words, and `Near.antt` says when words are near.

mod entry;
mod forms;
mod near;
mod slip;

pub use entry::{write_behind, write_behind_entry, write_line_entry};
pub use forms::{form_words, is_word, tab_cure, tab_words};
pub use near::is_near;
pub use slip::{Slip, slip_of, slip_span};
