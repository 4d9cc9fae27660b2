//! A law of layouts. The function does nothing: its contract is the law.

ghost use Rattle.cli_sheets.specs.SheetsWords.Laws.{ItemsStandOnTheirWheels};

/// Each item of a chart that breaks no rule is drawn on its wheels: each of them shows the item's own character.
pub fn items_stand_on_their_wheels()
    ensures { ItemsStandOnTheirWheels }
{}
