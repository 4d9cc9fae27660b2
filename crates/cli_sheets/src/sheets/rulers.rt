//! Rulers.

ghost use Rattle.std.specs.Prelude.{◌≡◌};
ghost use Rattle.cli_sheets.specs.SheetsWords.Rulers as rulers;

use crate::wording;

#[tactic(auto, unfolding(crate::specs::SheetsWords::Rulers::column_ruler))]
/// The ruler of the 80 columns of a card, two lines.
pub fn column_ruler() -> &'static str
    ensures { result.now ≡ rulers.column_ruler }
{
    wording::COLUMN_RULER
}

#[tactic(auto, unfolding(crate::specs::SheetsWords::Rulers::wheel_ruler))]
// The ruler of the 120 wheels.
pub(crate) fn wheel_ruler() -> &'static str
    ensures { result.now ≡ rulers.wheel_ruler }
{
    wording::WHEEL_RULER
}
