//! A cycle, slowly: the fourteen points of a cycle that printed a line, as steps of a page for a browser. At each point the wires that carry
//! an impulse are drawn over the panel.
//!
//! [`write_step_sections`] writes an element for each line, and [`write_step_links`] links to them. That of line 5 of page 1 has the id
//! `p1l5steps`. `specs/Steps.antt` says what is
//! written, and `specs/Live.antt` which wires carry an impulse.

mod live;
mod steps;

pub use steps::{write_step_links, write_step_sections};
