//! The jacks of a chart: which cycles print, and zero control on the wheels of amounts.

ghost use Rattle.std.specs.Prelude.{◌≡◌, ◌+◌, ◌≤◌, ℕ, Some, slice_get, length, true};
ghost use Rattle.hubs.specs.declared.jack.Jack.TheVariants as jack;
ghost use Rattle.wiring_table.specs.Below.report_definition.ChartForm as form;
ghost use Rattle.wiring_lines.specs.JacksAndTape.HelperJacks.{FigureJacks, FiguresAre, IsGoodFigure, JacksBefore, LineJacks, Plugs, Ranged, TotalsBelow, jack_of};
ghost use Rattle.hubs.specs.Jacks.{is_jack_in_range};
ghost use Rattle.wiring_table.specs.Jacks.{ChartJack};
ghost use Rattle.chart_lines.specs.declared.charts.chart.Line.{Line};

use crate::line_wires::mark_wheel;
use chart_line_rules::print_rules::heading_count;
use chart_lines::charts::{Line, Printing, Statement};
use chart_rules::{Chart, Figure};
use hubs::Jack;
use hubs::setups::Setup;

/// A jack that each wheel has, for zero control.
#[derive(Clone, Copy)]
pub(crate) enum WheelJack {
    /// LINK.
    Link,
    /// SUPPRESS.
    Suppress,
    /// SYMBOL.
    Symbol,
}

// The jack of a wheel.
fn jack_of(which: WheelJack, wheel: u8) -> Jack
    ensures value { result ≡ jack_of which wheel }
    ensures in_range { 1 ≤ wheel → wheel ≤ 120 → is_jack_in_range result ≡ true }
{
    match which {
        WheelJack::Link => Jack::Link(wheel),
        WheelJack::Suppress => Jack::Suppress(wheel),
        WheelJack::Symbol => Jack::Symbol(wheel),
    }
}

// Plugs a jack of the wheels from one on and before another.
fn plug_wheels(setup: &mut Setup, which: WheelJack, from: u8, end: u8)
    requires from { 1 ≤ from }
    requires order { from ≤ end }
    requires end { end ≤ 121 }
    ensures { Plugs (Ranged (jack_of which) from end) setup.old setup.new }
{
    for wheel in from..end {
        setup.plug(jack_of(which, wheel));
    }
}

// Whether a chart has a line for each card.
fn prints_details(lines: &[Line]) -> bool
    ensures { result ≡ form.prints_details lines.now }
{
    lines.iter().any(|line| matches!(line.statement, Statement::Print(Printing::Detail)))
}

// Whether a line puts an item on the total line of a level.
fn is_total_item(wanted: u8, statement: &Statement) -> bool
    ensures { result ≡ form.is_total_item wanted statement.now }
{
    match statement {
        Statement::TotalLiteral { level, .. } | Statement::TotalText { level, .. } => {
            level.number() == wanted
        }
        Statement::TotalAmount(total) => total.level.number() == wanted,
        _ => false,
    }
}

// Whether a chart has a total line for each group of a level.
fn prints_totals(lines: &[Line], level: u8) -> bool
    ensures { result ≡ form.prints_totals lines.now level }
{
    lines
        .iter()
        .any(|line| is_total_item(level, &line.statement))
}

// Plugs LIST where cards have lines.
fn plug_list(setup: &mut Setup, lines: &[Line])
    ensures { Plugs (λ each. (each ≡ jack.List) × (form.prints_details lines.now ≡ true)) setup.old setup.new }
{
    if prints_details(lines) {
        setup.plug(Jack::List);
    }
}

// Plugs TOTAL for each level with an item.
fn plug_totals(setup: &mut Setup, lines: &[Line])
    ensures { Plugs (TotalsBelow lines.now 5) setup.old setup.new }
{
    for level in 1..5 {
        plug_total(setup, lines, level);
    }
}

// Plugs TOTAL for a level, if it has an item.
fn plug_total(setup: &mut Setup, lines: &[Line], level: u8)
    requires { (1 ≤ level) × (level ≤ 4) }
    ensures { Plugs (λ each. (each ≡ jack.Total level) × (form.prints_totals lines.now level ≡ true)) setup.old setup.new }
{
    if prints_totals(lines, level) {
        setup.plug(Jack::Total(level));
    }
}

// Plugs HEAD for the heading lines from the first on and before another.
pub(crate) fn plug_heads(setup: &mut Setup, end: u8)
    requires { (1 ≤ end) × (end ≤ 4) }
    ensures { Plugs (Ranged jack.Head 1 end) setup.old setup.new }
{
    for heading in 1..end {
        setup.plug(Jack::Head(heading));
    }
}

// Plugs zero control on the wheels of an amount from a wheel on.
fn plug_figure(setup: &mut Setup, wheel: usize, figure: Figure)
    requires { IsGoodFigure wheel figure }
    ensures { Plugs (FigureJacks wheel figure) setup.old setup.new }
{
    let from = wheel as u8;
    let (digits, decimals) = (figure.digits as u8, figure.decimals as u8);
    let end = (wheel + figure.width()) as u8;
    plug_wheels(setup, WheelJack::Link, from + 1, end);
    let free = digits - decimals.max(1);
    plug_wheels(setup, WheelJack::Suppress, from, from + free);
    let mark = mark_wheel(wheel as u16, figure.digits, figure.decimals);
    plug_wheels(setup, WheelJack::Symbol, mark as u8, end);
}

// Plugs zero control on the wheels of the amount of a line, if it puts one on a line of the report.
pub(crate) fn plug_line(setup: &mut Setup, chart: &Chart, statement: &Statement)
    requires { FiguresAre chart.now.lines statement.now }
    ensures { Plugs (LineJacks chart.now.lines statement.now) setup.old setup.new }
{
    if let Some(item) = chart.item(statement) {
        if let Some(figure) = item.figure {
            plug_figure(setup, item.first, figure);
        }
    }
}

// Plugs zero control on the wheels of all amounts.
fn plug_lines(setup: &mut Setup, chart: &Chart)
    requires { (place : ℕ) (line : Line) → slice_get chart.now.lines place ≡ Some line
        → FiguresAre chart.now.lines line.statement }
    ensures { Plugs (JacksBefore chart.now.lines (length chart.now.lines)) setup.old setup.new }
{
    for line in chart.lines() {
        plug_line(setup, chart, &line.statement);
    }
}

/// Plugs the jacks of a chart.
pub fn plug_jacks(setup: &mut Setup, chart: &Chart)
    requires { (place : ℕ) (line : Line) → slice_get chart.now.lines place ≡ Some line
        → FiguresAre chart.now.lines line.statement }
    ensures { Plugs (ChartJack chart.now.lines) setup.old setup.new }
{
    let lines = chart.lines();
    let heads = heading_count(lines);
    plug_list(setup, lines);
    plug_totals(setup, lines);
    plug_heads(setup, heads + 1);
    plug_lines(setup, chart);
}
