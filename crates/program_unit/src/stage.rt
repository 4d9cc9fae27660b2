//! How far a card has come through its cycles.

use net::{Ordinal, ProgramLevel};

/// How far a card has come through its cycles: what ran last, and after a heading cycle also what waits for it.
#[derive(Clone, Copy, Debug, PartialEq, Eq)]
pub enum Stage {
    /// No cycle has run.
    Fresh,
    /// The run-in has run.
    RanIn,
    /// The card cycle has run.
    RanCard,
    /// A program cycle of a level has run.
    RanProg(ProgramLevel, Ordinal),
    /// A heading cycle has run, and the card cycle waits for the third.
    BeforeCard(Ordinal),
    /// A heading cycle has run, and the third program cycle of a level waits for the third.
    BeforeTotal(ProgramLevel, Ordinal),
}
