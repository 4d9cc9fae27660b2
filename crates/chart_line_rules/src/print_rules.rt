//! What a planning chart prints, on which lines and print wheels, and the rules on that.
//!
//! An [`Item`] is what a line of the chart puts on a [`PrintedLine`] of the report, from a first wheel on; an amount is a
//! [`Figure`]. Each `breaks_` call tells whether one line breaks one of the rules 31 to 37: on the marks of amounts, on the
//! wheels that items take and share, on which lines are printed, on the form and on the carriage tape. [`lacks_print`] and
//! [`lacks_form`] tell that a line is missing that a chart must have. [`form_lines`] is the length of a chart's form, and
//! [`is_good_tape`] tells whether a channel may have these stops on a form of a given length. It stands on `field_rules`, for
//! what the names of items stand for.
//!
//! `specs/PrintRules/` has a test for each rule, in a file for each notion, and `Items` with the item that a line is.

mod forms;
mod items;
mod marks;
mod printing;
mod tapes;
mod wheels;

pub use forms::{breaks_form, heading_count, lacks_form};
pub use items::{Figure, Item, PrintedLine, mark_shown};
pub use marks::breaks_mark_mismatch;
pub use printing::{breaks_print_kind, lacks_print};
pub use tapes::{breaks_tape, form_lines, is_good_tape};
pub use wheels::{breaks_wheel_clash, breaks_wheel_overlap, breaks_wheel_range};
