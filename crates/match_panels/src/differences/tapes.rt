//! What one tape has and another has not.

ghost use Rattle.std.specs.Prelude.{◌≡◌, ◌≤◌};
ghost use Rattle.match_panels.specs.DifferencesWords.Helper.{IsTapeDifference, LacksIn, LacksStopAt};
ghost use Rattle.wiring_lines.specs.JacksAndTape.HelperJacks.{Punches};
ghost use Rattle.hubs.specs.SetupsWords.Tapes.{HasStops, IsCarriageTape};
ghost use Rattle.std.specs.Prelude.{[]};

use hubs::setups::Tape;

// Punches a stop, if one tape has it and the other has not.
fn punch_at(left: &mut Tape, one: &Tape, other: &Tape, channel: u8, line: u8)
    requires { left.old.lines ≡ one.now.lines }
    ensures { Punches (LacksStopAt one.now other.now channel line) left.old left.new }
{
    if one.has_stop(channel, line) && !other.has_stop(channel, line) {
        left.punch(channel, line).unwrap();
    }
}

// Punches the stops of a channel that one tape has and the other has not.
fn punch_in(left: &mut Tape, one: &Tape, other: &Tape, channel: u8)
    requires lines { left.old.lines ≡ one.now.lines }
    requires form { IsCarriageTape one.now }
    ensures { Punches (LacksIn one.now other.now channel) left.old left.new }
{
    for line in 0..145 {
        punch_at(left, one, other, channel, line);
    }
}

// The tape of the form of one tape, without a stop.
fn bare_tape(one: &Tape) -> Tape
    ensures lines { result.lines ≡ one.now.lines }
    ensures first { result.first ≡ one.now.first }
    ensures overflow { result.overflow ≡ one.now.overflow }
    ensures stops { HasStops result [] }
    ensures form { IsCarriageTape one.now }
{
    Tape::new(one.lines(), one.first(), one.overflow(), &[]).unwrap()
}

/// The tape of the form of one tape, with just the stops that it has and the other has not.
pub(crate) fn tape_difference(one: &Tape, other: &Tape) -> Tape
    ensures { IsTapeDifference one.now other.now result }
{
    let mut left = bare_tape(one);
    for channel in 0..12 {
        punch_in(&mut left, one, other, channel);
    }
    left
}
