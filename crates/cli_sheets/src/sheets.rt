//! Sheets to look at beside a chart, and the commands that draw them: its printed lines under a ruler of the wheels, and what its fields
//! read on a card.
//!
//! [`write_layout`] draws each line of a chart's report with its items where they stand. [`write_fields`] tells what each field reads on
//! a card, with marks under its columns, and [`write_marked_line`] shows a line that is no card; [`column_ruler`] is the ruler to stand above them.
//! [`write_text`] and [`write_value`] write what one field reads, and [`write_with_decimals`] a number as its amount has them.
//!
//! - `sheet_calls`: two commands that draw what a chart says by columns and wheels

mod fields;
mod items;
mod laws;
mod layout;
mod lines;
mod marks;
mod rulers;
mod runs;
pub mod sheet_calls;

pub use fields::{write_fields, write_text, write_value, write_with_decimals};
pub use laws::items_stand_on_their_wheels;
pub use layout::write_layout;
pub use marks::write_marked_line;
pub use rulers::column_ruler;
