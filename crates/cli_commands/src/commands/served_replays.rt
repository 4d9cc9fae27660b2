//! Replays in which the units of the machine are served by orders: the pages of a wiring chart, a text of orders and a deck, and how
//! many rounds were taken and hubs seen.
//!
//! [`replayed_by_orders`] answers them over texts in memory, and [`print_replay_by_orders`] prints the pages over any reader and writer.
//! [`replay_by_orders_to_end`] does the whole command: the pages are printed, and what was counted, or why there are none, is told on one
//! line. The pages are those of the machine in which all units act at once, whatever the orders are.

mod answers;
mod counted;
mod fault;
mod laws;
mod serving;

pub use answers::{ServedPages, replayed_by_orders};
pub use counted::write_counts;
pub use laws::told_orders_have_entries;
pub use serving::{print_replay_by_orders, replay_by_orders, replay_by_orders_to_end};
