//! The faults of the program, by their numbers: the line that is told of each, and its entry in the guide.
//!
//! - `faults`: what can be wrong, and the line that is told of it
//! - `program_io`: what the program is given and what it writes
//! - `fault_guide`: the name, the cause, the cure and an example of each fault
#![tactic(auto)]

pub mod fault_guide;
pub mod faults;
pub mod program_io;
