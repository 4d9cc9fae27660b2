//! Tests of public calls, each with ample memory, on rows whose answers come from outside or were worked out by hand.
//!
//! What contracts can't say is seen here: that a call succeeds at all, and in blocks of which size pages go out. A call that a command
//! does is tested by data in `cases`, and not here, and neither is what a contract says word for word: a test is proved before it runs.
//! There is a file for each subject; `given` has the setups of several. What this crate costs in the gate goes into loading what these
//! libraries say, to prove the tests; the calls are small.
//!
//! - `compile_tests`: public calls of `compile407`, each with ample memory, on rows that were worked out by hand
#![tactic(auto)]

#[cfg(test)]
mod allocations;
pub mod compile_tests;
#[cfg(test)]
mod feeds;
#[cfg(test)]
mod given;
#[cfg(test)]
mod other_pilots;
#[cfg(test)]
mod pictures;
#[cfg(test)]
mod services;
#[cfg(test)]
mod station_rows;
#[cfg(test)]
mod waiting_units;
#[cfg(test)]
mod wired_setups;
#[cfg(test)]
mod written_pages;
