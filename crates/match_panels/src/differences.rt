//! Two setups of the panel side by side, and how far a panel is beside a chart.
//!
//! [`difference`] is what one setup has and another has not, as a setup of its own: its wires, its jacks and its stops. [`size`] is how
//! many of these a setup has, and [`is_same`] tells whether two setups have the same ones and one form.
//!
//! - `panel_progress`: how far a panel is beside a chart

mod alike;
mod between;
pub mod panel_progress;
mod sizes;
mod tapes;

pub use alike::is_same;
pub use between::difference;
pub use sizes::size;
