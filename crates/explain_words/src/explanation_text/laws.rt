//! Laws of the text of an explanation.

ghost use Rattle.explain_words.specs.ExplanationText.Laws.{GroupsAreAsTold, NoNoteAsksForWires, OnlyRowsTellWays};

/// No line of a text but those of the rows reads as the way of a row. The function does nothing: its contract is the law.
pub fn only_rows_tell_ways()
    ensures { OnlyRowsTellWays }
{}

/// No note of a text reads as a line that names who asks for wires. The function does nothing: its contract is the law.
pub fn no_note_asks_for_wires()
    ensures { NoNoteAsksForWires }
{}

/// What a note tells of a counter group at whose exit a way begins is so of the machine: it held the digits that are told just before the
/// cycle, and was told to read out at the control point. The function does nothing: its contract is the law.
pub fn groups_are_as_told()
    ensures { GroupsAreAsTold }
{}
