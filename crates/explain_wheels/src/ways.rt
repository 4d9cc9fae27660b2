//! Ways by which impulses reach hubs: from an exit that emits, by wires of a setup and by closed contacts.

mod leads;
mod search;
mod ways;

pub use ways::Ways;
