//! Charts that break no rule, from their bytes.

ghost use Rattle.std.specs.Prelude.{◌≡◌, ◌⊎◌, IfErr, IfOk, OnOk};
ghost use Rattle.chart_rules.specs.Rules.{IsLawful};
ghost use Rattle.fault_lines.specs.FaultsWords.ChartCauses.{of_rule, of_text};
ghost use Rattle.fault_lines.specs.FaultsWords.ToldFaults.{chart_told};
ghost use Rattle.cli_sheets.specs.SheetsWords.SheetCalls.Charts.{BreaksRules, ReadsLawful, RefusesLines};

use chart_lines::charts::RawChart;
use chart_rules::{Chart, RuleFault, check};
use chart_text::{TextFault, read_chart};
use fault_lines::faults::{ChartFault, Fault};
use std::alloc::Global;

// What is told of a text that is no chart.
fn text_told<'a>(cause: TextFault) -> Fault<'a>
    ensures { result ≡ chart_told (of_text cause) }
{
    ChartFault::from(cause).into()
}

// What is told of a chart that breaks a rule.
fn rule_told<'a>(cause: RuleFault) -> Fault<'a>
    ensures { result ≡ chart_told (of_rule cause) }
{
    ChartFault::from(cause).into()
}

// The chart that was read, if it breaks no rule.
fn checked<'a>(alloc: Global, raw: RawChart) -> Result<Chart, Fault<'a>>
    ensures same { IfOk result (λ chart. chart ≡ raw) }
    ensures lawful { OnOk result (IsLawful raw) }
    ensures refused { IfErr result (λ told. (told ≡ Fault.Memory) ⊎ BreaksRules raw told) }
{
    match check(alloc, raw) {
        Ok(chart) => Ok(chart),
        Err(cause) => Err(rule_told(cause)),
    }
}

/// The chart of a text, if it is one and breaks no rule. What of the machine it would take is not asked.
///
/// # Errors
///
/// The fault of the text, or the lowest rule that is broken with the lowest line that breaks it; `Memory` where a growth was refused.
pub(crate) fn lawful_chart<'a>(alloc: Global, text: &[u8]) -> Result<Chart, Fault<'a>>
    ensures read { IfOk result (ReadsLawful text.now) }
    ensures refused { IfErr result (λ told. (told ≡ Fault.Memory) ⊎ RefusesLines text.now told) }
{
    match read_chart(alloc, text) {
        Ok(raw) => checked(alloc, raw),
        Err(cause) => Err(text_told(cause)),
    }
}
