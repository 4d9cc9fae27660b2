//! How much each line of a chart asks for, and how much of that is missing.

ghost use Rattle.std.specs.Prelude.{◌≡◌, ◌≤◌, Contains, IfOk, length};
ghost use Rattle.match_panels.specs.DifferencesWords.PanelProgress.Counts.{AreCountsBefore, IsCountOf, forms_asked, forms_missing};
ghost use Rattle.chart_plans.specs.PlansWords.Plans.{ServesChart};

use crate::differences::panel_progress::tape_forms::forms;
use crate::differences::{difference, size};
use chart_lines::charts::{Line, Statement};
use chart_plans::plans::Plan;
use chart_rules::Chart;
use hubs::setups::{Setup, Tape};
use std::alloc::{AllocError, Global};
use wire_gen::line_setup;

/// How much a line of a chart asks for, and how much of that a setup has not: wires, jacks and stops, and under FORM the form.
#[derive(Clone, Copy, Debug, PartialEq, Eq)]
pub struct LineCount {
    /// The number of the line, from 1.
    pub number: u16,
    /// How much it asks for.
    pub asked: u32,
    /// How much of that is missing.
    pub missing: u32,
}

/// How a line of a chart stands on a panel.
#[derive(Clone, Copy, Debug, PartialEq, Eq)]
pub enum Standing {
    /// It asks for nothing.
    AsksNothing,
    /// All that it asks for is there.
    Done,
    /// Some of it is there.
    Begun,
    /// None of it is there.
    NotBegun,
}

impl LineCount {
    ghost use Rattle.std.specs.Prelude.{◌≡◌};
    ghost use Rattle.match_panels.specs.DifferencesWords.PanelProgress.Counts.{standing_of};

    /// How the line stands.
    pub fn standing(&self) -> Standing
        ensures { result ≡ standing_of self.now }
    {
        if self.asked == 0 {
            Standing::AsksNothing
        } else if self.missing == 0 {
            Standing::Done
        } else if self.missing < self.asked {
            Standing::Begun
        } else {
            Standing::NotBegun
        }
    }
}

// How many forms a line asks for.
fn forms_asked(statement: &Statement) -> u32
    ensures value { result ≡ forms_asked statement.now }
    ensures few { result ≤ 1 }
{
    match statement {
        Statement::Form { .. } => 1,
        _ => 0,
    }
}

// How many of them are missing.
fn forms_missing(statement: &Statement, wanted: &Tape, its: &Tape) -> u32
    ensures value { result ≡ forms_missing statement.now wanted.now its.now }
    ensures few { result ≤ 1 }
{
    match statement {
        Statement::Form { .. } => forms(wanted, its),
        _ => 0,
    }
}

// How much a line asks for by a plan, and how much of that a setup has not.
fn count_of(
    alloc: Global,
    chart: &Chart,
    plan: &Plan,
    line: &Line,
    setup: &Setup,
) -> Result<LineCount, AllocError>
    requires plan { ServesChart chart.now.lines plan.now }
    requires listed { Contains chart.now.lines line.now }
    ensures { IfOk result (IsCountOf chart.now.lines plan.now setup.now line.now) }
{
    let wanted = line_setup(alloc, chart, plan, line)?;
    let lacking = difference(alloc, &wanted, setup)?;
    let asked = size(&wanted) + forms_asked(&line.statement);
    let missing = size(&lacking) + forms_missing(&line.statement, wanted.tape(), setup.tape());
    Ok(LineCount {
        number: line.number,
        asked,
        missing,
    })
}

/// For each line of a chart, in their order, how much it asks for by a plan of the chart, and how much of that a setup has not. What several
/// lines ask for is counted with each of them. Its only refusal is memory.
pub fn line_counts(
    alloc: Global,
    chart: &Chart,
    plan: &Plan,
    setup: &Setup,
) -> Result<Vec<LineCount>, AllocError>
    requires plan { ServesChart chart.now.lines plan.now }
    ensures { IfOk result (λ counts. AreCountsBefore chart.now.lines plan.now setup.now (length chart.now.lines) counts.items) }
{
    let mut counts = Vec::new(alloc);
    for line in chart.lines() {
        counts.push(count_of(alloc, chart, plan, line, setup)?)?;
    }
    Ok(counts)
}
