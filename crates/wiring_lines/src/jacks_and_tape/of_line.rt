//! The jacks and the stops of one line of a chart.

ghost use Rattle.std.specs.Prelude.{◌≡◌, [], Contains};
ghost use Rattle.chart_lines.specs.ChartsWords.Levels.{level_number};
ghost use Rattle.hubs.specs.declared.jack.Jack.TheVariants as jack;
ghost use Rattle.wiring_table.specs.Below.report_definition.ChartForm.{form_of};
ghost use Rattle.hubs.specs.SetupsWords.Tapes.{HasStops};
ghost use Rattle.wiring_lines.specs.JacksAndTape.HelperJacks.{FiguresAre, Plugs};
ghost use Rattle.wiring_lines.specs.JacksAndTape.OfLine.{IsTapeOfLine, LineJack, PrintJack};
ghost use Rattle.wiring_lines.specs.JacksAndTape.OfLines.{JacksAreOfLines, StopsAreOfLines};

use crate::jacks_and_tape::chart_tape::{punch_channel, tape_of};
use crate::jacks_and_tape::panel_jacks::{plug_heads, plug_line};
use chart_lines::charts::{Level, Line, Printing, Statement};
use chart_rules::Chart;
use hubs::Jack;
use hubs::setups::{Setup, Tape};

// Plugs the jacks by which cycles print that a line asks for.
fn plug_printing(setup: &mut Setup, statement: &Statement)
    ensures { Plugs (PrintJack statement.now) setup.old setup.new }
{
    match statement {
        Statement::Print(Printing::Detail) => {
            setup.plug(Jack::List);
        }
        Statement::Head { line, .. } => plug_heads(setup, line.number() + 1),
        Statement::TotalLiteral { level, .. } => plug_level(setup, *level),
        Statement::TotalText { level, .. } => plug_level(setup, *level),
        Statement::TotalAmount(total) => plug_level(setup, total.level),
        _ => {}
    }
}

// Plugs TOTAL of a level.
fn plug_level(setup: &mut Setup, level: Level)
    ensures { Plugs (λ each. each ≡ jack.Total (level_number level)) setup.old setup.new }
{
    setup.plug(Jack::Total(level.number()));
}

/// Plugs the jacks that one line of a chart asks for.
pub fn plug_line_jacks(setup: &mut Setup, chart: &Chart, line: &Line)
    requires { FiguresAre chart.now.lines line.now.statement }
    ensures { Plugs (LineJack chart.now.lines line.now.statement) setup.old setup.new }
{
    plug_printing(setup, &line.statement);
    plug_line(setup, chart, &line.statement);
}

// The tape of a chart's form, without a stop.
fn bare_tape(chart: &Chart) -> Tape
    ensures lines { result.lines ≡ (form_of chart.now.lines).lines }
    ensures first { result.first ≡ (form_of chart.now.lines).first }
    ensures overflow { result.overflow ≡ (form_of chart.now.lines).overflow }
    ensures stops { HasStops result [] }
{
    let whole = tape_of(chart);
    Tape::new(whole.lines(), whole.first(), whole.overflow(), &[]).unwrap()
}

/// The tape of a chart's form with the stops of one line alone: those of a TAPE line, and none of any other.
pub fn line_tape(chart: &Chart, line: &Line) -> Tape
    requires { Contains chart.now.lines line.now }
    ensures { IsTapeOfLine chart.now.lines line.now.statement result }
{
    // What is known of every chart is told with its lines.
    let _lines = chart.lines();
    let mut tape = bare_tape(chart);
    if let Statement::Tape { channel, stops } = &line.statement {
        punch_channel(&mut tape, *channel as u8, stops.lines());
    }
    tape
}

/// The jacks and the stops of a chart are those of its lines. The function does nothing: its contract is the laws.
pub fn jacks_and_stops_are_of_lines()
    ensures jacks { JacksAreOfLines }
    ensures stops { StopsAreOfLines }
{}
