//! A deck whose reading is watched at a terminal.

ghost use Rattle.std.specs.Prelude.{◌≡◌};

use std::io;
use std::io::{IsTerminal, Read, Write};
use std::rt::Clock;
use std::time::Duration;

/// How many milliseconds a run may last before anything is told of it.
const PATIENCE: u64 = 2_000;

/// How many milliseconds what is told stays the same.
const PAUSE: u64 = 250;

/// As many blanks as what is told has characters at most.
const BLANKS: &[u8] = b"\r                                    \r";

// When the reading began and when it was told of last, by the clock of the machine.
#[derive(Clone, Copy)]
struct Times {
    begun: Duration,
    told: Option<Duration>,
}

/// A deck, read. Of one whose reading takes more than two seconds standard error tells how many cards were read, if it is a terminal, and
/// nothing of it is left once the deck is let go. What is read is the deck's.
pub struct Watched<'r, R: Read + Drop> {
    rt: &'r HostRuntime,
    deck: R,
    cards: u64,
    times: Option<Times>,
}

impl<'r, R: Read + Drop> Watched<'r, R> {
    /// A deck of which nothing was read yet. `is_told` is whether anything may be told of it.
    pub fn new(rt: &'r HostRuntime, deck: R, is_told: bool) -> Watched<'r, R>
        ensures { result.deck ≡ deck }
    {
        let begun = if is_told && rt.stderr().is_terminal() {
            rt.monotonic().ok()
        } else {
            None
        };
        Watched {
            rt,
            deck,
            cards: 0,
            times: begun.map(|begun| Times { begun, told: None }),
        }
    }

    // Tells how many cards were read, if it is time to. Answers when it was told of last.
    fn told(&self, times: Times) -> Times {
        let Ok(now) = self.rt.monotonic() else {
            return times;
        };
        let since = times.told.unwrap_or(times.begun);
        let wait = if times.told.is_some() {
            PAUSE
        } else {
            PATIENCE
        };
        if now.saturating_sub(since) < Duration::from_millis(wait) {
            return times;
        }
        // If it can't be written, nobody needs it.
        let _ = write!(self.rt.stderr(), "\r{} cards read", self.cards);
        Times {
            told: Some(now),
            ..times
        }
    }
}

impl<R: Read + Drop> Read for Watched<'_, R> {
    ghost remaining = { λ watched. R.remaining watched.deck };

    fn read(&mut self, buf: &mut [u8]) -> io::Result<usize> {
        let count = self.deck.read(buf)?;
        if let Some(times) = self.times {
            let cards = buf[..count].iter().filter(|byte| **byte == b'\n').count();
            self.cards = self.cards.saturating_add(cards as u64);
            self.times = Some(self.told(times));
        }
        Ok(count)
    }
}

impl<R: Read + Drop> Drop for Watched<'_, R> {
    fn drop(self) {
        let Watched {
            rt,
            deck: _deck,
            cards: _cards,
            times,
        } = self;
        if times.is_some_and(|times| times.told.is_some()) {
            let _ = rt.stderr().write_all(BLANKS);
        }
    }
}
