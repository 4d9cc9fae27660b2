//! Laws of counter groups. Each is a function that does nothing: its contract is the law.

ghost use Rattle.counters.specs.Laws.{GroupsAreNumbered, CountersStay, CyclesAreSums, PairsAreCounters, SumsAreLeft, TurningIsAdding};
ghost use Rattle.counters.specs.Places.{RingsFollowCarryRule, WheelsFollowCarryRule};
ghost use Rattle.counters.specs.Rings.{WiredGroupsAreRings, WiredPairsAreCoupled};
ghost use Rattle.counters.specs.WholeCycles.{EarliestRowsAreEntered};

/// A wheel gets one more step exactly where, going down from the next lower one, some wheel passed from 9 to 0 and
/// all between stand at 9, or where a carry came in at the units and all lower ones stand at 9. In a ring the way goes on from
/// the units to the top, as far as the wheel itself.
pub fn carries_follow_the_rule()
    ensures group { WheelsFollowCarryRule }
    ensures ring { RingsFollowCarryRule }
{}

/// What wheels spell in the end, with the carry that leaves the top, is the sum of what they spelt, what they advance
/// by, and the carry that comes in at the lowest.
pub fn turning_is_adding()
    ensures { TurningIsAdding }
{}

/// A counter cycle as a number, for groups of each width: what the group starts from, what is added and the carry that came in
/// at the units are the number at its end and the carry that leaves the top. Where none came in the number is the sum, less what
/// leaves the top; where the carry is that of a ring, what leaves the top comes in again as one.
pub fn cycles_are_sums()
    ensures sum { CyclesAreSums }
    ensures left { SumsAreLeft }
{}

/// Two groups under the same controls through which one carry goes, out of the lower one into the upper one, are one counter of
/// as many positions as both have: on the line, and as a ring where what leaves the upper one comes in at the lower one. A test
/// of the balance may be told to one of them alone.
pub fn pairs_are_counters()
    ensures { PairsAreCounters }
{}

/// A group whose carry exit is wired to its own carry entry is a ring, and one that no wire feeds with a carry gets none.
pub fn wired_groups_are_rings()
    ensures { WiredGroupsAreRings }
{}

/// One carry goes through two groups where the carry exit of the lower one is wired to the carry entry of the upper one, and comes
/// round where the wire back is there too.
pub fn wired_pairs_are_coupled()
    ensures { WiredPairsAreCoupled }
{}

/// A group has a digit and an entered digit for each of its positions, at the start and after whatever it senses.
pub fn groups_stay_groups()
    ensures { CountersStay }
{}

/// A group begins with the number of its unit.
pub fn groups_are_numbered()
    ensures { GroupsAreNumbered }
{}

/// After the points of a cycle a group has the controls of the control point and, under plus or minus, at each position the digit
/// of the earliest of the rows 9 to 1 at which its entry was impulsed, or 0. The number of these digits is what is added.
pub fn earliest_rows_are_entered()
    ensures { EarliestRowsAreEntered }
{}
