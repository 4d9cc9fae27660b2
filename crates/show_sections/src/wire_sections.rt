//! The elements of wires and hubs: to them the drawing of the panel links.
//!
//! [`write_wire_sections`] writes them. The element `wire5` is that of the fifth wire that is drawn: its name, and the line of the chart that
//! asks for it. The element `hub5` is that of the hub with number 5: its name, its block, and links to its wires. Both link to the printed
//! characters of which an impulse came through, and if the hub, or the one that the wire enters, belongs to a counter, to the sums that it held
//! when they were printed. Both have the panel with the wire or the wires over it. `specs/Sections.antt` says what is written,
//! `specs/Passing.antt` what came through, and `specs/Held.antt` which sums a counter held.

mod held;
mod hub_sections;
mod passing;
mod through;
mod wire_sections;

pub use hub_sections::write_wire_sections;
pub use passing::Part;
