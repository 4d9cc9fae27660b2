//! Laws over definitions alone.

ghost use Rattle.cli_commands.specs.PanelGuides.Laws.{ExplainedLinesAreOnPages};

use compile407::wired_setups_print_reports;
use explain_wheels::explanations::laws::placed_lines_are_printed;

/// The line that an explanation is of stands on the pages that are printed of the same text and deck, by `run` of a planning chart and by
/// `replay` of a wiring chart.
pub fn explained_lines_are_on_pages()
    ensures { ExplainedLinesAreOnPages }
{
    wired_setups_print_reports();
    placed_lines_are_printed();
}
