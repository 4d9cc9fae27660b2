//! The text of a ledger, as a bookkeeper would tell it: each line and each word is a function of the ledger.
//!
//! [`write_ledger`] writes a ledger: the cycle that it is told before, and its entries with the words that a chart has for them, as a
//! [`Title`] tells it. [`write_cycle`] writes which cycle it is, and behind which card. The parts are there for those who set them apart, or
//! write a trace: [`write_sum`], [`write_source`], [`write_amount`], [`write_gap`], [`write_carry`], [`write_cycle_name`], [`write_group_name`].

mod amounts;
mod entries;
mod names;
mod telling;
mod title;

pub use amounts::{write_amount, write_digits};
pub use entries::{
    positions_of, write_carry, write_entry, write_gap, write_gaps, write_source, write_sum,
};
pub use names::{write_account, write_cycle, write_cycle_name, write_group_name};
pub use telling::{write_heading, write_ledger, write_no_ledger};
pub use title::Title;
