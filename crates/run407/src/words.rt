//! The words of the command line, and what is told of them.

ghost use Rattle.std.specs.Prelude.{◌≡◌, ◌≢◌};
ghost use Rattle.std.specs.IoError.{error_kind};

use cli_commands::commands::{Ending, Fault, tell, unprinted};
use cli_words::Refused;
use std::io;
use std::io::{ErrorKind, IsTerminal, Write};

/// The status of words that can't be read.
const USAGE: u8 = 2;

/// The status of a chart, a deck or a wiring chart with a fault.
const FAULTY: u8 = 3;

/// The words, the program's name first.
///
/// # Errors
///
/// One of them is no UTF-8, or a growth was refused.
pub fn given_words(rt: &HostRuntime) -> io::Result<Vec<String>> {
    let mut words = Vec::new(rt.alloc());
    for word in std::env::args(rt)? {
        words.push(word)?;
    }
    Ok(words)
}

/// Tells why the words can't even be had: no memory was left, or one of them is no UTF-8. Answers the status.
pub fn tell_wordless(rt: &HostRuntime, error: &io::Error) -> u8
    ensures memory { error_kind error.now ≡ ErrorKind.OutOfMemory → result ≡ 5 }
    ensures others { error_kind error.now ≢ ErrorKind.OutOfMemory → result ≡ 2 }
{
    let mut faults = rt.stderr();
    if error.kind() == ErrorKind::OutOfMemory {
        return tell(&Fault::Memory, &mut faults).status;
    }
    // If even this can't be written, the status alone tells of it.
    let _ = faults.write_all(b"error: a word is no UTF-8 text\n");
    USAGE
}

/// Says what is waited for if a chart and its deck are to be typed at a terminal.
pub fn tell_waiting(rt: &HostRuntime) {
    if rt.stdin().is_terminal() {
        // If it can't be written, nobody needs it.
        let _ = rt.stderr().write_all(
            b"run407: type a chart, and its deck behind the chart's line END; --help tells the commands\n",
        );
    }
}

/// Says at a terminal where more is told of a fault. Its line alone is the same wherever it is written.
pub fn tell_more(rt: &HostRuntime, status: u8) {
    if status == FAULTY && rt.stderr().is_terminal() {
        // If it can't be written, the line of the fault is there all the same.
        let _ = rt.stderr().write_all(
            b"run407 fault NUMBER tells what it means, and run407 check --all TEXT lists every fault of a chart or a wiring chart, with a deck behind a chart every bad card\n",
        );
    }
}

/// Whether a terminal shows both what is printed and what is told.
pub fn shows_both(rt: &HostRuntime) -> bool {
    rt.stdout().is_terminal() && rt.stderr().is_terminal()
}

/// Tells that the output is one of the files that are read. Answers status 2. If standard error can't be written, the status alone tells of it.
pub fn tell_output_read(rt: &HostRuntime) -> Ending
    ensures { result.status ≡ 2 }
{
    let told = rt
        .stderr()
        .write_all(b"error: --output names a file that is read\n");
    Ending {
        status: USAGE,
        is_told: told.is_ok(),
    }
}

/// Answers the status if the words ask for nothing that is still to be done. Want of memory, and that the help can't be written, are told
/// here.
pub fn tell_refused(rt: &HostRuntime, refused: &Refused) -> u8
    ensures memory { refused.now ≡ Refused.Memory → result ≡ 5 }
    ensures mistaken { refused.now ≡ Refused.Mistaken → result ≡ 2 }
    ensures answered { refused.now ≡ Refused.Answered → result ≡ 0 }
{
    match refused {
        Refused::Memory => {
            tell(&Fault::Memory, &mut rt.stderr());
        }
        Refused::Unwritten(error) => {
            tell(&unprinted(error), &mut rt.stderr());
        }
        Refused::Mistaken | Refused::Answered => {}
    }
    refused.status()
}
