//! What a chart wants of the machine.
//!
//! [`Wanted`] has the totals of a chart, which want counter groups, and its [`Parts`]: what pilots, comparing and indicate
//! positions, storage units and column splits are to serve, each in the order in which the chart asks for it. It counts how much is
//! wanted of each [`Capacity`]. It stands on `chart_rules`, for charts that break no rule, and knows no machine.
//!
//! `specs/` has each of these as a list of lines, fields or columns of the chart.

mod chart_totals;
mod count;
mod parts;
mod pilot;
mod position;
mod total;
mod unit;
mod wanted;

pub use chart_totals::{line_total, total_place};
pub use count::{Capacity, takes_two};
pub use parts::Parts;
pub use position::Position;
pub use total::Total;
pub use unit::has_narrow_texts;
pub use wanted::Wanted;
