//! The explanations of printed characters, and these as markup: an element for each, with its words and its ways over the panel.
//!
//! [`told_wheels`] explains the printed characters of lines, [`write_told_sections`] writes their elements. The element of wheel 3 of line
//! 2 of page 1 has the id `p1l2w3`, to which the sheets of `report_sheets` link. `specs/Told.antt` says what is told, and
//! `specs/Sections.antt` what is written.

mod sections;
mod told;
mod words;

pub use sections::{write_section_close, write_told_sections};
pub use told::told_wheels;
