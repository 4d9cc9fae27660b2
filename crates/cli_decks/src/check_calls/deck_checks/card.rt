//! A line of a deck by itself.

ghost use Rattle.std.specs.Prelude.{IfErr, IfOk};
ghost use Rattle.cli_decks.specs.CheckCalls.DeckChecks.BadLines.{IsBadLine, IsGoodLine};

use card_code::{Card, read_card};
use chart_rules::{Chart, valid_read_card};
use fault_lines::faults::{Fault, RunFault};

// The card of a line, the one with a number, or what is told of it where it is none, or none that is valid for the chart.
pub(crate) fn judge<'a>(chart: &Chart, number: u32, line: &[u8]) -> Result<Card, Fault<'a>>
    ensures good { IfOk result (λ card. IsGoodLine chart.now line.now card) }
    ensures bad { IfErr result (λ told. IsBadLine chart.now number line.now told) }
{
    let card = read_card(number, line)?;
    match valid_read_card(chart, &card) {
        Ok(()) => Ok(card),
        Err(fault) => Err(RunFault::of_card(fault, number).into()),
    }
}
