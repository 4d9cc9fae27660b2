//! The trace of a run as markup: an element for each cycle, with links to the next cycle and to the one before.
//!
//! [`write_cycles`] writes the elements of a trace, or of its first cycles; [`count_cycles`] tells how many it has. The element of the third cycle has the id `cycle3`.
//! `specs/Sections.antt` says what is written.

mod rows;
mod sections;

pub use sections::{count_cycles, write_cycles};
