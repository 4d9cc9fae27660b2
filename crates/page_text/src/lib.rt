//! Pages as text: printed lines with their places, and the bytes of the pages.
//!
//! [`page_bytes`] writes the pages of lines in order, from page 1 to the last that has one. [`in_order`], of the module
//! `placed_lines`, tells whether lines are in order.
//!
//! - `placed_lines`: printed lines with their places
#![tactic(auto)]

mod pages;
pub mod placed_lines;

pub use crate::placed_lines::in_order;
pub use pages::{last_page, page_bytes, without_trailing_blanks};
