//! The law of zero control.

ghost use Rattle.print_unit.specs.Laws.{PrintsUnderZeroControl, PrintsFreely};

/// The law of zero control: it is a relation from each wheel to the wheel on its left, and where it does not work each wheel
/// prints the character of the rows that it received. The call does nothing.
pub fn zero_control_looks_to_the_left()
    ensures controlled { PrintsUnderZeroControl }
    ensures free { PrintsFreely }
{}
