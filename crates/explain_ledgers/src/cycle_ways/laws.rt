//! Laws of ways. Each is a function that does nothing: its contract is the law.

ghost use Rattle.explain_ledgers.specs.CycleWays.ToldImpulses.{ControlsAreTold, DigitsAreTold};

/// In a cycle of a run a counter group is under plus exactly if a way to its plus entry is told at the control point, and so for minus and
/// read-out.
pub fn ways_tell_controls()
    ensures { ControlsAreTold }
{}

/// If a digit came to a position of a counter group in a cycle of a run, then a way to the entry of the position is told at the row of the
/// digit.
pub fn ways_tell_digits()
    ensures { DigitsAreTold }
{}
