//! What is wrong with the lines of a wiring chart, as values.
//!
//! [`wiring_faults`] answers all faults of a text: the one that `read_setup` of `wiring_text` tells, and then those of the text without the line at
//! fault. [`line_slip`] tells of a line that is none of a wiring chart what is wrong with it, [`hub_word`] what a word is that stands where a
//! hub is wanted, and [`carry_slip`] why the panel can't have a carry. [`first_met`] finds the line that another one meets. All of them are
//! total over any text.
//!
//! `specs/Faulty.antt` says which faults a text has, `LineSlips.antt`, `HubWords.antt` and `CarrySlips.antt` which slip a line has and where, and
//! `Meetings.antt` when two lines meet.
#![tactic(auto)]

mod carry;
mod faulty;
mod hub;
mod line;
mod meeting;

pub use carry::{CarrySlip, carry_slip};
pub use faulty::{WiringFaults, wiring_faults};
pub use hub::{HubWord, hub_word, is_there, is_unpointed, letters_in, second_place, tail_of};
pub use line::{LineSlip, begins_with, line_slip, line_span};
pub use meeting::{CarryWire, Meeting, first_met};
