//! Laws of the order of cycles. Each is a function that does nothing: its contract is the law.

ghost use Rattle.program_unit.specs.Laws.{HeadingsComeOnce, LevelsRunInOrder};

/// The three heading cycles come once in a printing cycle's place, and then that cycle runs, whatever the restore latch is
/// by then.
pub fn headings_come_once()
    ensures { HeadingsComeOnce }
{}

/// Where the restore latch is reset, a card cycle is followed by the three program cycles of each level up to the highest
/// that is called for, of all four levels after the last card, from the lowest on, and then by the next card's cycle, if
/// there is one.
pub fn levels_run_in_order()
    ensures { LevelsRunInOrder }
{}
