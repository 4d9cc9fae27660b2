//! Sets of places, and how they are spread along wires.
//!
//! - `bit_sets`: sets as words of 64 bits, and what is reached from one
//! - `spreads`: rows of sets that go along wires and through closed contacts, all at once
#![tactic(auto)]

pub mod bit_sets;
pub mod spreads;
