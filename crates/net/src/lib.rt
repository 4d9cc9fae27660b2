//! What is impulsed at a point of a cycle: cycles, points, pictures of the panel, and the trait of its units.
#![tactic(auto)]

mod bits;
mod contacts;
mod cycle;
mod kinds;
mod laws;
mod links;
mod net;
mod orders;
mod picture;
mod printing;
mod row_sets;
mod straight;
mod tellings;
mod unit;

pub use bits::has_bit;
pub use cycle::{Cycle, Ordinal, POINTS, Point, ProgramLevel};
pub use laws::{
    emitting_exits_have_a_picture, impulsed_hubs_are_the_least_set, wires_make_the_picture,
    wires_to_entries_lead_no_further,
};
pub use net::Net;
pub use orders::Orders;
pub use picture::{Contacts, HUBS, Picture};
pub use printing::Printing;
pub use row_sets::RowSets;
pub use straight::Straight;
pub use unit::Unit;
