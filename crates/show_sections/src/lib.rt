//! The sections of the page for a browser, a module for each: the sheets of the report, the panel with its legend, the cycles, and what is
//! told of a wheel, and of a wire or a hub.
#![tactic(auto)]

pub mod chart_panels;
pub mod cycle_sections;
pub mod report_sheets;
pub mod wheel_sections;
pub mod wire_sections;
