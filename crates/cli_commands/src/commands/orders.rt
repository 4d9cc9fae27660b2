//! The text of orders: by which orders the units of a machine are served, a line each.
//!
//! [`read_orders`] answers the [`machine_served::served::Service`] of a text, or the one fault that the text has. `specs/OrdersText.antt` has what a line
//! says and which text has which fault.

mod fault;
mod read;

pub use fault::OrdersFault;
pub use read::read_orders;
