//! Laws of counter groups in a cycle, in numbers. Each is a function that does nothing: its contract is the law.

ghost use Rattle.proof_cycles.specs.TotalsWords.CounterCycles.Pairs.{PairsDoWhatIsAsked, PairsShowTheirDigits};
ghost use Rattle.proof_cycles.specs.TotalsWords.CounterCycles.Laws.{DigitsAndNumbers, EverythingCanBeAsked, GroupsBeginEmpty, GroupsDoWhatIsAsked, GroupsShowTheirDigits, TopWheelsAtNine};

/// Whatever is asked of a group in a cycle, to add or subtract only a number that has room in it, it then holds the number and
/// the balance latch that this leaves, as a ring where a carry comes round and without one where none comes in, and is ready for
/// the next cycle. What comes at its entries without plus and minus doesn't matter.
pub fn groups_do_what_is_asked()
    ensures { GroupsDoWhatIsAsked }
{}

/// Everything can be asked of every group: there are pictures that ask it.
pub fn everything_can_be_asked()
    ensures { EverythingCanBeAsked }
{}

/// At the start of a run each group is ready, holds 0, and has its latch reset.
pub fn groups_begin_empty()
    ensures { GroupsBeginEmpty }
{}

/// The digits of a group are those of its number, and it shows each at its own exit, at the row of the digit alone.
pub fn groups_show_their_digits()
    ensures { GroupsShowTheirDigits }
{}

/// Digits tell a number and a number its digits: groups of one width that hold one number have the same digits.
pub fn digits_and_numbers()
    ensures { DigitsAndNumbers }
{}

/// The top wheel of a group stands at 9 exactly where ten times its number reaches nine times the power of its width.
pub fn top_wheels_at_nine()
    ensures { TopWheelsAtNine }
{}

/// Whatever is asked of two groups through which one carry goes, they then hold what one group of as many positions as both would
/// hold, with the latch of the upper one: on the line, and as a ring where the carry comes round.
pub fn pairs_do_what_is_asked()
    ensures { PairsDoWhatIsAsked }
{}

/// The digits of two groups are those of their number together: from the units of the lower one to its top, and then those of the
/// upper one.
pub fn pairs_show_their_digits()
    ensures { PairsShowTheirDigits }
{}
