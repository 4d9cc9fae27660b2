//! Laws over definitions alone.

ghost use Rattle.proof_laws.specs.PanelLaws.CardTexts.{ReadsCardTexts};

/// Each text on the line of a card is read. Take a lawful chart, a plan of it, a panel that is wired for the chart by the plan, and a draft in
/// which no column of the panel is overlooked, as [`read_panel`](readback_panels::read_panel) reads it. Then on each wheel on which the chart puts
/// a column of a text on each card, a text of the draft shows this column.
pub fn texts_of_cards_are_read()
    ensures { ReadsCardTexts }
{}
