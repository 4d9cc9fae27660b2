//! What a counter group does in a cycle, as numbers: what it is asked, and what it then holds.
//!
//! `specs/` has what can be asked and what it leaves, a group through the points of a cycle, and digits as numbers; the laws
//! tie them to the wheels. Nothing here is run.

pub mod laws;
