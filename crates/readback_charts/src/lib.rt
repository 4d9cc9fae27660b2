//! Which chart a panel is wired for: the chart that is read off it, compiled and matched with it; or the nearest one, if there are slips on
//! the panel.
//!
//! [`read_back`] has the reader propose a draft. What it answers is decided by others: the draft's text is compiled as any chart's text is,
//! and the panel is matched with it as with any chart. So nothing that the reader does can make the answer wrong. [`read_beside`] reads one panel
//! and matches another with what is read. [`wired_chart`] is a chart for which a panel is wired, if it is so for what is read at once.
//!
//! - `panel_slips`: slips on a panel
//! - `nearest_charts`: the chart that is nearest to a panel with slips
#![tactic(auto)]

mod answer;
mod lawful;
pub mod nearest_charts;
pub mod panel_slips;
mod wired;

pub use answer::{PanelChart, read_back, read_beside};
pub use wired::wired_chart;
