//! Laws of explained lines. Each is a function that does nothing: its contract is the law.

ghost use Rattle.explain_wheels.specs.ExplanationsWords.PlacedInRun.{PlacedLinesArePrinted};
ghost use Rattle.explain_wheels.specs.ExplanationsWords.Says.{UnitsAreAsTold};

/// A line that a cycle of a run places is one that the machine prints of the deck.
pub fn placed_lines_are_printed()
    ensures { PlacedLinesArePrinted }
{}

/// What an exit that emits at a row says of the machine just before the cycle, and what a closed contact does: which card is punched, what a
/// storage unit holds, whether a pilot is transferred, a latch is set. The words of an explanation tell it so.
pub fn units_are_as_told()
    ensures { UnitsAreAsTold }
{}
