//! Two commands that draw what a chart says by columns and wheels: the layout of its printed lines, and what its fields read on a card.
//!
//! [`layout_to_end`] prints the layout of a chart, and [`fields_to_end`] one card of a deck with the chart's fields. Each tells on one line
//! why it can't.

mod charts_read;
mod fields;
mod layouts;

pub use fields::{fields_to_end, print_fields};
pub use layouts::{layout_to_end, print_layout};
