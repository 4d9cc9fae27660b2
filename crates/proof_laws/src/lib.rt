//! Laws about what is read off a panel and told of its runs. Nothing here is run, and no other crate stands on this one.
//!
//! - `panel_laws`: a panel that is wired for a chart, and read back
//! - `hole_laws`: what a ledger or an origin tells by a hole of a card
//! - `ledger_amounts`: ledgers and the amounts of the report
//! - `served_reports`: the headline with units that run ahead of one another
#![tactic(auto)]

pub mod hole_laws;
pub mod ledger_amounts;
pub mod panel_laws;
pub mod served_reports;
