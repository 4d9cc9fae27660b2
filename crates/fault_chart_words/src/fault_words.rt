//! What is told of each fault of a chart: its line with a mark, what is wrong in the words of that line, and what helps.
//!
//! [`write_entries`] writes an entry for each fault that the lists of this crate have. An entry begins with a line such as
//! `line 9 fault 34 WheelClash`; the lines below it are indented. This module stands on `fault_slips`, for the line and the mark, and on the
//! tests of the rules, which tell the other line that a line meets.
//!
//! `specs/FaultWords/Entries.antt` has the text of an entry, `Words.antt` the words of each rule, `FormWords.antt` those of a form, `Parts.antt` the word of the line that is marked,
//! and `Others.antt` the other line. All words are functions of the chart.

mod entries;
mod form_words;
mod others;
mod parts;
mod words;

pub use entries::write_entries;
