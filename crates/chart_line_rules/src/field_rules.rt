//! The fields of a planning chart by their names, and the rules on what its lines say of fields, control levels and totals.
//!
//! [`Fields`] are the fields of some lines, with the first of each name; [`first_named`] finds it by a search where there is no index.
//! Each `breaks_` call tells whether one line breaks one of the rules 21 to 30 and 38: that names are known, and stand for the right
//! kind of field; that columns are on the card; that no line says a thing again; that levels are controlled; that totals have digits
//! enough, and bear the word COUPLED where they take two counter groups. What a rule looks at beside that line is seen by its
//! arguments: all lines of the chart, those before this one, the fields, or the version and the numbers of the lines with COUPLED.
//! What a line says comes from below, and of wheels and of the form nothing is known here.
//!
//! `specs/FieldRules/` has a test for each rule, in a file for each notion, and `Fields` with what a name stands for. `HelperIndex`
//! there is a word of the code alone.

mod columns;
mod control;
mod coupled;
mod digits;
mod fields;
mod names;
mod repeats;
mod shrink;

pub use columns::{breaks_amount_size, breaks_columns};
pub use control::{breaks_no_control, breaks_total_text_not_control};
pub use coupled::breaks_coupled_mark;
pub use digits::breaks_digits_range;
pub use fields::{Fields, first_named};
pub use names::{breaks_name_twice, breaks_unknown_name, breaks_wrong_kind};
pub use repeats::breaks_line_twice;
pub use shrink::breaks_digits_shrink;
