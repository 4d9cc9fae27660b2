//! Printing: the emitters, and the print wheels with their zero control.
//!
//! [`Emitters`] emits the rows of fixed characters, as those of headings. [`Wheels`] collects what comes to the 120 print wheels
//! in a cycle, and makes the line of it at the cycle's end. Both are units of the machine.
#![tactic(auto)]

mod characters;
mod emitters;
mod laws;
mod line;
mod wheel_words;
mod wheels;
mod zero_control;

pub use emitters::Emitters;
pub use laws::zero_control_looks_to_the_left;
pub use wheels::Wheels;
