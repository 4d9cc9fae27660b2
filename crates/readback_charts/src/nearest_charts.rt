//! The chart that is nearest to a panel with slips.
//!
//! A panel that is read back exactly needs nothing of this. If it isn't, [`nearest_chart`] reads panels with one thing changed, a wire or a
//! jack, and keeps the chart from which the panel itself differs least. Whatever is tried, what is answered of the panel and the chart is
//! what the match of the two tells.

mod nearest;

pub use nearest::nearest_chart;
