//! The carriage tape of a chart.

ghost use Rattle.std.specs.Prelude.{◌≡◌, ◌≤◌, All, Contains};
ghost use Rattle.wiring_table.specs.Below.report_definition.ChartForm as form;
ghost use Rattle.wiring_lines.specs.JacksAndTape.HelperJacks.{HasTape, Punches};
ghost use Rattle.wiring_table.specs.WiredFor.{IsTapeOf};

use chart_lines::charts::{Line, Statement};
use chart_rules::Chart;
use hubs::setups::Tape;

// The lines of the chart's form, its first line and its overflow line.
fn form_of(lines: &[Line]) -> (u16, u16, u16)
    ensures lines { result.0 ≡ (form.form_of lines.now).lines }
    ensures first { result.1 ≡ (form.form_of lines.now).first }
    ensures overflow { result.2 ≡ (form.form_of lines.now).overflow }
{
    for line in lines {
        if let Statement::Form {
            lines: long,
            first,
            overflow,
        } = line.statement
        {
            return (long, first, overflow);
        }
    }
    (0, 0, 0)
}

// The stops of a channel.
fn stops_of(lines: &[Line], wanted: u8) -> &[u16]
    ensures { result.now ≡ form.stops_of lines.now wanted }
{
    for line in lines {
        if let Statement::Tape { channel, stops } = &line.statement {
            if *channel == wanted as u16 {
                return stops.lines();
            }
        }
    }
    &[]
}

// Punches the stops of a channel.
pub(crate) fn punch_channel(tape: &mut Tape, channel: u8, stops: &[u16])
    requires channel { (2 ≤ channel) × (channel ≤ 11) }
    requires long { tape.old.lines ≤ 144 }
    requires stops { All (λ line. (1 ≤ line) × (line ≤ tape.old.lines)) stops.now }
    ensures { Punches (λ c line. (c ≡ channel) × Contains stops.now line) tape.old tape.new }
{
    for line in stops {
        tape.punch(channel, *line as u8).unwrap();
    }
}

// The tape of a chart whose form and stops are those of a tape.
fn punched_tape(lines: &[Line]) -> Tape
    requires { HasTape lines.now }
    ensures { IsTapeOf lines.now result }
{
    let (long, first, overflow) = form_of(lines);
    let mut tape = Tape::new(long as u8, first as u8, overflow as u8, &[]).unwrap();
    for channel in 2..12 {
        punch_channel(&mut tape, channel, stops_of(lines, channel));
    }
    tape
}

/// The tape of a chart: its form, and the stops of all its TAPE lines.
pub fn tape_of(chart: &Chart) -> Tape
    ensures { IsTapeOf chart.now.lines result }
{
    let lines = chart.lines();
    punched_tape(lines)
}
