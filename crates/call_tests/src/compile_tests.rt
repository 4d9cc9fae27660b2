//! Public calls of `compile407`, each with ample memory, on rows that were worked out by hand.
//!
//! As in `call_tests`, what a command does is tested by data in `cases`, and not here: here are devices that fail, and decks that are held
//! whole. What this module costs in the gate goes into loading what `compile407` says, to prove the tests.

#[cfg(test)]
mod streams;
