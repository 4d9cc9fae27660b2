//! The ledgers of counter groups, and their text: which cycles of a run made the number that a group holds.
//!
//! An [`Entry`] is a cycle in which something came to a number since it last stood cleared: its card, the number before, what came to it, and the
//! number after. An [`Account`] is the group, or the two groups, whose number that is. [`find_cycle`] finds the cycle that placed a line,
//! and [`ledger_before`] answers the [`Ledger`] of an account as that cycle found it. [`find_cycles`] and [`ledgers_before`] do so for many by one
//! run. [`machine_in_cycle`] answers the machine in a cycle, and [`read_outs_before`] which groups are read out in each cycle before it.
//!
//! - `ledger_text`: the text of a ledger, as a bookkeeper would tell it

mod account;
mod entry;
mod found;
mod in_cycle;
mod kept;
pub mod laws;
mod ledger;
pub mod ledger_text;
mod numbers;
mod read_outs;

pub use account::Account;
pub use entry::{Change, Entry, Movement};
pub use found::{FoundCycle, LinePlace, SoughtLine, find_cycle, find_cycles};
pub use in_cycle::machine_in_cycle;
pub use kept::{AskedLedger, KeptLedger, ledger_before, ledgers_before};
pub use ledger::{Ledger, LeftOut};
pub use read_outs::{ReadOuts, read_outs_before};
