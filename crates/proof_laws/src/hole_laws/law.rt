//! That holes impulse the entries to which wires lead from them, and so call levels.

ghost use Rattle.proof_laws.specs.HoleLaws.Asks.{CyclesImpulseEntries};
ghost use Rattle.proof_laws.specs.HoleLaws.Impulses.{HolesImpulseEntries};
ghost use Rattle.proof_laws.specs.HoleLaws.Reasons.{HolesTellCompared, LinesTellDifferences, OthersCallNoLevel, ReasonsHold};

/// If a hole of a card is told for a row and an entry, then the entry is impulsed when that row passes, in the cycle of the run in which it is
/// told. The function does nothing: its contract is the law.
pub fn holes_impulse_entries()
    ensures { HolesImpulseEntries }
{}

/// If it is told that a cycle asks at an entry, then the entry is impulsed at the control point of that cycle of the run. The function does
/// nothing: its contract is the law.
pub fn cycles_impulse_entries()
    ensures { CyclesImpulseEntries }
{}

/// If wires lead to an entry of a comparing position from brushes alone, then a hole is told for it and a row exactly if it is impulsed when
/// that row of the card passes. The function does nothing: its contract is the law.
pub fn holes_tell_compared()
    ensures { HolesTellCompared }
{}

/// If wires lead to both of its entries from brushes alone, then a comparing position emits at the closing point of a card's cycle exactly if
/// a line is told of it. So those of which no line is told call no level. The function does nothing: its contract is the law.
pub fn lines_tell_differences()
    ensures told { LinesTellDifferences }
    ensures others { OthersCallNoLevel }
{}

/// If a text is told why a program cycle of a run runs, then in the cycle that read its card no card stood behind that card, or the comparing
/// position that is told, which is wired from brushes alone and has a line at least, emitted and called the level that is told, and no lower
/// such position called that of the program cycle or a higher one; and the level of the program cycle is one of those that run with the card.
/// The function does nothing: its contract is the law.
pub fn reasons_hold()
    ensures { ReasonsHold }
{}
