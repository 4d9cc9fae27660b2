//! Where the carriage stands, and its moves down the form.

ghost use Rattle.std.specs.Prelude.{◌≡◌, ◌<◌, ◌≤◌, IfSome};
ghost use Rattle.carriage.specs.Moves.{next_page, is_stop_of, next_stop};

use hubs::setups::Tape;

/// The page whose number stays: no page follows it.
const LAST_PAGE: u64 = 1 << 32;

/// Where the carriage stands.
#[derive(Clone, Copy, Debug, PartialEq, Eq)]
pub struct Spot {
    /// The page, 0 before the first one.
    pub page: u64,
    /// The line on the page, 0 before the first page.
    pub line: u32,
    /// The restore latch: heading cycles run before the next printing cycle.
    pub latch: bool,
}

impl Spot {
    ghost use Rattle.std.specs.Prelude.{◌≡◌};
    ghost use Rattle.carriage.specs.Moves.{at_first_line, come_to, down, down_by, restored, skipped_to, next_stop};

    /// Begins a page: the form's first line, with the latch reset.
    pub fn begin_page(&mut self, tape: &Tape)
        ensures { self.new ≡ at_first_line tape.now self.old }
    {
        self.page = next_page(self.page);
        self.line = u32::from(tape.first());
        self.latch = false;
    }

    /// Goes down by so many lines, one after another.
    pub fn down_by(&mut self, tape: &Tape, lines: u32)
        ensures { self.new ≡ down_by tape.now lines self.old }
    {
        for _line in 0..lines {
            self.down(tape);
        }
    }

    /// Skips to the next stop of a channel below the line; where the form has none, it stays and sets the latch.
    pub fn skip(&mut self, tape: &Tape, channel: u8)
        ensures { self.new ≡ skipped_to tape.now (next_stop tape.now channel self.old.line) self.old }
    {
        match next_stop(tape, channel, self.line) {
            Some(stop) => self.down_by(tape, stop - self.line),
            None => self.latch = true,
        }
    }

    /// Sets the latch where a restore is asked for.
    pub fn restore(&mut self, restore: bool)
        ensures { self.new ≡ restored restore self.old }
    {
        self.latch |= restore;
    }

    // Goes down by one line, from the last line of the form to line 1 of the next page.
    fn down(&mut self, tape: &Tape)
        ensures { self.new ≡ down tape.now self.old }
    {
        if self.line < u32::from(tape.lines()) {
            self.come_to(tape, self.page, self.line + 1);
        } else {
            self.come_to(tape, next_page(self.page), 1);
        }
    }

    // Comes to a line of a page. The overflow line sets the latch.
    fn come_to(&mut self, tape: &Tape, page: u64, line: u32)
        ensures { self.new ≡ come_to tape.now page line self.old.latch }
    {
        self.page = page;
        self.line = line;
        self.latch |= line == u32::from(tape.overflow());
    }
}

// The page after this one.
fn next_page(page: u64) -> u64
    ensures { result ≡ next_page page }
{
    if page < LAST_PAGE { page + 1 } else { page }
}

// The next stop of a channel on this form, below a line.
fn next_stop(tape: &Tape, channel: u8, line: u32) -> Option<u32>
    ensures stop { result ≡ next_stop tape.now channel line }
    ensures below { IfSome result (λ stop. line < stop) }
{
    let lines = u32::from(tape.lines());
    if lines <= line {
        return None;
    }
    for stop in line + 1..lines + 1 {
        if is_stop_of(tape, channel, stop as u8) {
            return Some(stop);
        }
    }
    None
}

// Whether a channel has a stop at a line: channel 1 at the first line, channel 12 at the overflow line.
fn is_stop_of(tape: &Tape, channel: u8, line: u8) -> bool
    ensures { result ≡ is_stop_of tape.now channel line }
{
    match channel {
        1 => line == tape.first(),
        12 => line == tape.overflow(),
        _ => tape.has_stop(channel, line),
    }
}
