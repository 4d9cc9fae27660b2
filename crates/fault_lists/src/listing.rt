//! The list of all faults of a chart.

ghost use Rattle.std.specs.Prelude.{◌≡◌, ◌≢◌, ◌⊎◌, IfErr, OnOk, codes};
ghost use Rattle.std.specs.Io.KnownBytes.{Appends};
ghost use Rattle.allocate.specs.Exceeded.{FitsMachine, HasCapacityFault};
ghost use Rattle.capacity.specs.Capacities.{standard};
ghost use Rattle.chart_plans.specs.WantedWords.Wanted.{wanted_of};
ghost use Rattle.chart_text.specs.ChartText.{Reads};
ghost use Rattle.chart_text.specs.TextFaults.{HasTextFault};
ghost use Rattle.fault_lines.specs.FaultsWords.ChartCauses.{of_rule, of_text};
ghost use Rattle.fault_lines.specs.FaultsWords.Lines.{IsTold};
ghost use Rattle.fault_lines.specs.FaultsWords.Status.{status_of};
ghost use Rattle.fault_lines.specs.FaultsWords.ToldFaults.{chart_told};
ghost use Rattle.fault_lists.specs.Endings.{AnswersOk, EndsCapacity, EndsListing, HasListed, IsBrokenOff, WritesBehind, WritesText};

use crate::behind::list_behind;
use crate::capacities::{Source, write_capacities};
use crate::capacity_faults::capacity_faults;
use crate::entries::write_text_entry;
use crate::misread_lines::misread_lines;
use crate::rules::write_rules;
use allocate::{CapacityFault, allocate};
use capacity::Profile;
use chart_lines::charts::RawChart;
use chart_plans::wanted::Wanted;
use chart_rules::{Chart, RuleFault, check};
use chart_text::{TextFault, read_chart};
use fault_chart_words::broken_rules;
use fault_lines::faults::{ChartFault, Ending, Fault, tell, unprinted};
use fault_lines::program_io::put;
use std::alloc::Global;
use std::io::Write;

// What is told of a text that is no chart.
fn text_told<'a>(cause: TextFault) -> Fault<'a>
    ensures { result ≡ chart_told (of_text cause) }
{
    ChartFault::from(cause).into()
}

// What is told of a chart that breaks a rule.
fn rule_told<'a>(cause: RuleFault) -> Fault<'a>
    ensures { result ≡ chart_told (of_rule cause) }
{
    ChartFault::from(cause).into()
}

/// Lists a fault of a text, and answers what is told of it.
fn told_text<'a, W: Write>(alloc: Global, out: &mut W, text: &[u8], fault: TextFault) -> Fault<'a>
    requires { fault ≢ TextFault.Memory → HasTextFault text.now fault }
    ensures { EndsListing text.now (W.contents out.old) (W.contents out.new) result }
{
    let Ok(lines) = misread_lines(alloc, text) else {
        return Fault::Memory;
    };
    match list_text(alloc, out, text, lines.as_slice(), fault) {
        Ok(()) => text_told(fault),
        Err(broken) => broken,
    }
}

/// Lists a fault of a text, and behind it what is wrong besides its lines that no form derives.
fn list_text<'a, W: Write>(
    alloc: Global,
    out: &mut W,
    text: &[u8],
    lines: &[u16],
    fault: TextFault,
) -> Result<(), Fault<'a>>
    ensures listed { OnOk result (WritesText text.now lines.now fault (W.contents out.old) (W.contents out.new)) }
    ensures broken_off { IfErr result IsBrokenOff }
{
    match write_text_entry(out, text, lines, fault) {
        Ok(()) => list_rest(alloc, out, text, lines, fault),
        Err(error) => Err(unprinted(&error)),
    }
}

/// Lists what is wrong with a text besides its lines that no form derives, if it has such lines.
fn list_rest<'a, W: Write>(
    alloc: Global,
    out: &mut W,
    text: &[u8],
    lines: &[u16],
    fault: TextFault,
) -> Result<(), Fault<'a>>
    ensures listed { OnOk result (WritesBehind text.now lines.now fault (W.contents out.old) (W.contents out.new)) }
    ensures broken_off { IfErr result IsBrokenOff }
{
    match fault {
        TextFault::NotALine { .. } => list_behind(alloc, out, text, lines),
        _ => Ok(()),
    }
}

/// Lists all capacities of the standard machine that a chart exceeds, and answers what is told of the first.
fn told_capacities<'a, W: Write>(
    alloc: Global,
    out: &mut W,
    text: &[u8],
    chart: &Chart,
    first: CapacityFault,
) -> Fault<'a>
    requires { HasCapacityFault (wanted_of chart.now.lines) standard first }
    ensures { EndsCapacity text.now chart.now (W.contents out.old) (W.contents out.new) result }
{
    let Ok(wanted) = Wanted::of(alloc, chart) else {
        return Fault::Memory;
    };
    let Ok(list) = capacity_faults(alloc, &wanted, &Profile::standard()) else {
        return Fault::Memory;
    };
    let Ok(totals) = wanted.totals().to_vec(alloc) else {
        return Fault::Memory;
    };
    let parts = wanted.into_parts();
    let source = Source {
        text,
        lines: chart.lines(),
        totals: totals.as_slice(),
        parts: &parts,
    };
    match write_capacities(out, &source, list.as_slice()) {
        Ok(()) => first.into(),
        Err(error) => unprinted(&error),
    }
}

/// Lists the rules that a chart breaks.
fn list_rules<'a, W: Write>(
    alloc: Global,
    out: &mut W,
    text: &[u8],
    raw: &RawChart,
) -> Result<(), Fault<'a>>
    ensures listed { OnOk result (HasListed text.now raw.now (W.contents out.old) (W.contents out.new)) }
    ensures broken_off { IfErr result IsBrokenOff }
{
    let list = broken_rules(alloc, raw)?;
    write_rules(alloc, out, text, raw, list.as_slice())
}

/// Answers `ok` where a chart fits the machine, or lists the capacities that it exceeds.
fn list_capacity<'a, W: Write>(
    alloc: Global,
    out: &mut W,
    text: &[u8],
    chart: &Chart,
) -> Result<(), Fault<'a>>
    ensures fits { OnOk result (FitsMachine (wanted_of chart.now.lines) standard
        × Appends (W.contents out.old) (W.contents out.new) (codes "ok\n")) }
    ensures exceeds { IfErr result (λ told. EndsCapacity text.now chart.now (W.contents out.old) (W.contents out.new) told) }
{
    match allocate(alloc, chart, &Profile::standard()) {
        Ok(_plan) => put(out, b"ok\n"),
        // Want of memory is no fault of the chart, so it isn't listed.
        Err(CapacityFault::Memory) => Err(Fault::Memory),
        Err(fault) => Err(told_capacities(alloc, out, text, chart, fault)),
    }
}

/// Lists the faults of a chart that was read.
fn list_read<'a, W: Write>(
    alloc: Global,
    out: &mut W,
    text: &[u8],
    raw: RawChart,
) -> Result<(), Fault<'a>>
    requires { Reads text.now raw }
    ensures fine { OnOk result (AnswersOk text.now (W.contents out.old) (W.contents out.new)) }
    ensures ends { IfErr result (λ told. EndsListing text.now (W.contents out.old) (W.contents out.new) told) }
{
    list_rules(alloc, out, text, &raw)?;
    match check(alloc, raw) {
        Ok(chart) => list_capacity(alloc, out, text, &chart),
        Err(fault) => Err(rule_told(fault)),
    }
}

/// Lists all faults of a chart on `out`, or writes `ok`.
///
/// # Errors
///
/// The fault that `check` tells of the chart, behind its list; `Memory` where a growth was refused and `Write` where the output can't be
/// written, and then a front of the list may have been.
pub fn list_chart<'a, W: Write>(alloc: Global, text: &[u8], out: &mut W) -> Result<(), Fault<'a>>
    ensures fine { OnOk result (AnswersOk text.now (W.contents out.old) (W.contents out.new)) }
    ensures ends { IfErr result (λ told. EndsListing text.now (W.contents out.old) (W.contents out.new) told) }
{
    match read_chart(alloc, text) {
        Ok(raw) => list_read(alloc, out, text, raw),
        Err(fault) => Err(told_text(alloc, out, text, fault)),
    }
}

/// Lists all faults of a chart, as [`list_chart`] does, and tells on one line of `faults` the one that `check` tells.
///
/// The statuses are 0 where the answer is `ok`, and then nothing is told, 3 where the chart is at fault, 4 where the output can't be
/// written, 5 for memory.
pub fn list_chart_to_end<W: Write, V: Write>(
    alloc: Global,
    text: &[u8],
    out: &mut W,
    faults: &mut V,
) -> Ending
    ensures fine { result.status ≡ 0
        → AnswersOk text.now (W.contents out.old) (W.contents out.new) × (faults.new ≡ faults.old) }
    ensures ends { (result.status ≡ 0) ⊎ ((told : Fault) × (result.status ≡ status_of told)
        × EndsListing text.now (W.contents out.old) (W.contents out.new) told
        × IsTold told result.is_told (V.contents faults.old) (V.contents faults.new)) }
{
    match list_chart(alloc, text, out) {
        Ok(()) => Ending {
            status: 0,
            is_told: true,
        },
        Err(fault) => tell(&fault, faults),
    }
}
