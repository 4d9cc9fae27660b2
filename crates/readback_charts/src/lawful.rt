//! A chart that compiles, by the draft that is read off a panel: lines that break a rule or take too much of the machine are left out.

ghost use Rattle.std.specs.Prelude.{◌≡◌, ◌≢◌, IfErr, IfNone, IfOk, IfSome, string_bytes};
ghost use Rattle.compile407.specs.ChartFaults.{HasChartFault};
ghost use Rattle.fault_lines.specs.declared.faults.chart.ChartFault.TheVariants as chart;
ghost use Rattle.readback_charts.specs.PanelChart.{HasChart, IsChart};
ghost use Rattle.readback_panels.specs.Lines.{IsFramed};

use allocate::CapacityFault;
use chart_lines::charts::{BodyLine, ControlLevel};
use compile407::{ChartFault, Compiled, compile, compiled_texts_have_no_fault};
use hubs::setups::Setup;
use readback_panels::{DraftLine, Item, PrintedLine, Reading, Said, read_panel, write_draft};
use std::alloc::{AllocError, Global};

/// The text of a chart, and the chart, compiled.
pub(crate) struct ChartText {
    /// The text.
    pub(crate) text: String,
    /// The chart.
    pub(crate) compiled: Compiled,
}

// By hand, so that a function that drops one calls this, and doesn't drop its parts one by one.
impl Drop for ChartText {
    fn drop(self) {
        let ChartText {
            text: _text,
            compiled: _compiled,
        } = self;
    }
}

impl ChartText {
    ghost use Rattle.std.specs.Prelude.{◌≡◌};

    /// The text and the chart.
    pub(crate) fn into_parts(self) -> (String, Compiled)
        ensures text { result.0 ≡ self.text }
        ensures compiled { result.1 ≡ self.compiled }
    {
        let ChartText { text, compiled } = self;
        (text, compiled)
    }
}

// A text, compiled.
fn compiled_text(alloc: Global, text: String) -> Result<ChartText, ChartFault>
    ensures compiles { IfOk result (λ chart. IsChart (string_bytes chart.text) chart.compiled) }
    ensures text { IfOk result (λ chart. chart.text ≡ text) }
    ensures refused { IfErr result (λ fault. fault ≢ chart.Memory → HasChartFault (string_bytes text) fault) }
{
    let compiled = compile(alloc, text.as_bytes())?;
    Ok(ChartText { text, compiled })
}

/// The text that is read off a panel, no line left out. Its only refusal is memory.
pub(crate) fn text_read(alloc: Global, setup: &Setup) -> Result<String, AllocError>
    ensures { IfOk result (λ text. IsFramed (string_bytes text)) }
{
    let reading = read_panel(alloc, setup)?;
    write_draft(
        alloc,
        &reading.draft,
        setup.tape(),
        reading.lines.as_slice(),
    )
}

#[tactic(auto, using(crate::proofs::MatchedCharts::no_chart))]
/// The chart of a text; none exactly if the text doesn't compile. Its only refusal is memory.
pub(crate) fn chart_in(alloc: Global, text: String) -> Result<Option<ChartText>, AllocError>
    ensures compiles { IfOk result (λ found. IfSome found (λ chart. IsChart (string_bytes chart.text) chart.compiled)) }
    ensures text { IfOk result (λ found. IfSome found (λ chart. chart.text ≡ text)) }
    ensures none { IfOk result (λ found. IfNone found (¬ HasChart (string_bytes text))) }
{
    compiled_texts_have_no_fault();
    match compiled_text(alloc, text) {
        Ok(chart) => Ok(Some(chart)),
        Err(ChartFault::Memory) => Err(AllocError),
        Err(_) => Ok(None),
    }
}

/// The chart that is read off a panel, no line left out; none where it doesn't compile, or has the text that is known.
pub(crate) fn whole_text(
    alloc: Global,
    setup: &Setup,
    known: &str,
) -> Result<Option<ChartText>, AllocError>
    ensures compiles { IfOk result (λ found. IfSome found (λ chart. IsChart (string_bytes chart.text) chart.compiled)) }
{
    let text = text_read(alloc, setup)?;
    if text.as_str() == known {
        return Ok(None);
    }
    chart_in(alloc, text)
}

// Whether an item is an amount with a mark.
fn has_mark(said: &Said) -> bool {
    match said {
        Said::Amount { mark, .. } => mark.is_some(),
        _ => false,
    }
}

// Whether an item is a text that is indicated at a level.
fn is_indicated(said: &Said, level: ControlLevel) -> bool {
    match said {
        Said::Text { indicated, .. } => *indicated == Some(level),
        _ => false,
    }
}

// Whether an item takes of a part of which there are too few.
fn is_excess(item: &Item, fault: CapacityFault) -> bool {
    let is_card = item.line == PrintedLine::Body(BodyLine::Detail);
    match fault {
        CapacityFault::Counters { .. } => !is_card && matches!(item.said, Said::Amount { .. }),
        CapacityFault::Pilots { .. } => has_mark(&item.said),
        CapacityFault::Splits { .. } => is_card && has_mark(&item.said),
        CapacityFault::StorageUnits { .. } => !is_card && matches!(item.said, Said::Text { .. }),
        CapacityFault::Indicate { level, .. } => is_indicated(&item.said, level),
        _ => false,
    }
}

// Whether a line takes of a part of which there are too few.
fn takes(reading: &Reading, line: DraftLine, fault: CapacityFault) -> bool {
    match line {
        DraftLine::Control { .. } => matches!(fault, CapacityFault::Comparing { .. }),
        DraftLine::Item { item } => match reading.draft.items.get(item) {
            Some(its) => is_excess(its, fault),
            None => false,
        },
        _ => false,
    }
}

// The number of the last line that takes of a part of which there are too few; 0 where none does.
fn last_taking(reading: &Reading, fault: CapacityFault) -> u16 {
    let mut last = 0;
    for (place, line) in reading.lines.iter().enumerate() {
        if place < 1000 && takes(reading, *line, fault) {
            last = place as u16 + 2;
        }
    }
    last
}

// The number of a line that is to be left out for a capacity; 0 where none is.
fn line_over_capacity(reading: &Reading, fault: CapacityFault) -> u16 {
    match fault {
        CapacityFault::StorageWidth { line } => line,
        _ => last_taking(reading, fault),
    }
}

// The number of a line that is to be left out for a fault; 0 where none is.
fn line_at_fault(reading: &Reading, fault: ChartFault) -> u16 {
    match fault {
        ChartFault::Rule { line, .. } => line,
        ChartFault::NotALine { line } => line,
        ChartFault::Capacity { fault: exceeded } => line_over_capacity(reading, exceeded),
        _ => 0,
    }
}

// How often a line may be left out: each time there is one less, or a blank more.
const MOST_STEPS: u16 = 1000;

// The chart that is read off a panel, without the lines that it can't have; none where that doesn't end with a chart.
fn lawful_text(alloc: Global, setup: &Setup) -> Result<Option<ChartText>, AllocError>
    ensures compiles { IfOk result (λ found. IfSome found (λ chart. IsChart (string_bytes chart.text) chart.compiled)) }
{
    let mut reading = read_panel(alloc, setup)?;
    for _ in 0..MOST_STEPS {
        let text = write_draft(
            alloc,
            &reading.draft,
            setup.tape(),
            reading.lines.as_slice(),
        )?;
        let number = match compiled_text(alloc, text) {
            Ok(chart) => return Ok(Some(chart)),
            Err(ChartFault::Memory) => return Err(AllocError),
            Err(fault) => line_at_fault(&reading, fault),
        };
        if number == 0 {
            return Ok(None);
        }
        reading.leave_out(alloc, setup, number)?;
    }
    Ok(None)
}

// The text of the smallest chart: it prints a blank line behind the last card.
const SMALLEST: &str = "CHART407 2\nPRINT GROUP\nTOTAL 4 1 ' '\nFORM 12 1 9\nEND\n";

#[tactic(auto, using(crate::proofs::Smallest::memory_alone), unfolding(crate::proofs::Smallest::smallest_text))]
// The smallest chart. It compiles, so only memory can be wanting.
fn smallest_chart(alloc: Global) -> Result<ChartText, ChartFault>
    ensures compiles { IfOk result (λ chart. IsChart (string_bytes chart.text) chart.compiled) }
    ensures refused { IfErr result (λ fault. fault ≡ chart.Memory) }
{
    let text = String::from_str(alloc, SMALLEST)?;
    compiled_text(alloc, text)
}

/// The chart that is read off a panel, without the lines that it can't have; where nothing is left of it, the smallest chart.
///
/// # Errors
///
/// `Memory`, if a growth was refused.
pub(crate) fn chart_text_of(alloc: Global, setup: &Setup) -> Result<ChartText, ChartFault>
    ensures compiles { IfOk result (λ chart. IsChart (string_bytes chart.text) chart.compiled) }
    ensures refused { IfErr result (λ fault. fault ≡ chart.Memory) }
{
    match lawful_text(alloc, setup)? {
        Some(chart) => Ok(chart),
        None => smallest_chart(alloc),
    }
}
