//! The command that lists all faults of a text, a wiring chart or a planning chart, from its bytes.
//!
//! [`list_text_to_end`] answers `ok`, or lists the faults on `out` and tells on standard error the one that other commands tell. Of a wiring chart
//! [`list_wiring`] lists every line at fault; of a planning chart `list_chart` of `fault_lists` lists what it breaks.
//!
//! `specs/Endings.antt` says what is listed and told in each case.

mod listing;

pub use listing::{list_text, list_text_to_end, list_wiring};
