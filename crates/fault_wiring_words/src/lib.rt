//! What is told of the faults of a wiring chart: for each a line that a script can read, the line with a mark, what is wrong and what helps.
//!
//! [`write_wiring_list`] writes the entries of faults that `fault_wiring_slips` found. What is said of a line is a function of its text, of
//! its fault and of the lines that are not at fault.
//!
//! `specs/Entries.antt` says what an entry is; `Lines.antt` and `Forms.antt` have the words for lines that are none of a wiring chart, `HubWords.antt`
//! those for words that are no hubs, and `Unfit.antt` those for lines that the panel can't have.
#![tactic(auto)]

mod entries;
mod forms;
mod hub_words;
mod lines;
mod unfit;
mod wording;

pub use entries::write_wiring_list;
