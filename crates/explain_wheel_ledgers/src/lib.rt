//! The ledger of the figure on a wheel of a printed line, as a text, down to the holes of the cards.
//!
//! [`tell_ledger`] finds the counter group that the wheel is printed of, by the ways to it, and the total of a chart that this group serves,
//! and tells the ledger of the total, or else that of the group, before the cycle that placed the line. [`tell_basis`] does so for each
//! group at which a way of the wheel's explanation begins, and tells where all else comes from; [`tell_whole`] goes on down to the holes.
//! [`totals_of`] answers the totals of a chart as its plan has them served.
//!
//! - `ledger_holes`: ledgers down to the holes
#![tactic(auto)]

mod chart_totals;
mod figures;
pub mod ledger_holes;
mod lower;
mod places;
mod printed;
mod resting;
mod scope;
mod telling;
mod texts;
mod whole;

pub use chart_totals::{TitledAccount, find_total, totals_of};
pub use figures::figure_on;
pub use lower::AskedGroup;
pub use printed::place_printed;
pub use resting::tell_basis;
pub use scope::{Scope, tell_scope};
pub use telling::{account_told, tell_ledger, title_told};
pub use texts::put_together;
pub use whole::tell_whole;
