//! The printed pages of a report as markup: a sheet for each page, a row for each line of it, with a word for the cycle that printed it,
//! and each printed character a link.
//!
//! [`write_sheets`] writes the pages of lines. The character of wheel 3 of line 2 of page 1 links to the element `p1l2w3`, and its row is
//! the element `p1l2`. `specs/Sheets.antt` says what is written.

mod sheets;

pub use sheets::{widest, write_sheets, write_wheel_link, write_wheel_name};
