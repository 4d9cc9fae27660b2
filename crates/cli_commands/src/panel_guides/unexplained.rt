//! Why a wheel is not explained, and how that is told.

ghost use Rattle.std.specs.Prelude.{◌≡◌, OnOk};
ghost use Rattle.std.specs.Io.KnownBytes.{Appends};
ghost use Rattle.cli_commands.specs.PanelGuides.Unexplained.{IsToldUnexplained, unexplained_line, unexplained_status};

use chart_numerals::write_between;
use fault_lines::faults::{Ending, Fault, write_line, write_place};
use std::io;
use std::io::Write;

/// Why a wheel is not explained. Each is told on one line.
#[derive(Clone, Copy)]
pub enum Unexplained<'a> {
    /// The text or the deck is refused, the deck can't be read, the output can't be written, or memory ran out.
    Failed { fault: Fault<'a> },
    /// No line is printed at this page and this line of it.
    NoSuchLine { page: u64, line: u32 },
    /// The wheel is not one of 1 to 120.
    NoSuchWheel { wheel: u32 },
}

impl Unexplained<'_> {
    ghost use Rattle.std.specs.Prelude.{◌≡◌};
    ghost use Rattle.cli_commands.specs.PanelGuides.Unexplained.{unexplained_status};

    /// The status of the program: 3 for a line or a wheel that there isn't, else that of the fault.
    pub fn status(&self) -> u8
        ensures { result ≡ unexplained_status self.now }
    {
        match self {
            Unexplained::Failed { fault } => fault.status(),
            Unexplained::NoSuchLine { .. } | Unexplained::NoSuchWheel { .. } => 3,
        }
    }
}

impl<'a> From<Fault<'a>> for Unexplained<'a> {
    ghost use Rattle.std.specs.Prelude.{◌≡◌};
    ghost use Rattle.cli_commands.specs.declared.panel_guides.unexplained.Unexplained.TheVariants.{Failed};

    ghost from_gives = { λ fault told. told ≡ Failed fault };

    fn from(fault: Fault<'a>) -> Self {
        Unexplained::Failed { fault }
    }
}

/// Writes the line that tells why a wheel is not explained, and LF.
///
/// # Errors
///
/// Where the writer fails. It may then have taken a part of the line.
pub fn write_unexplained<V: Write>(told: &Unexplained, out: &mut V) -> io::Result<()>
    ensures { OnOk result (Appends (V.contents out.old) (V.contents out.new) (unexplained_line told.now)) }
{
    match told {
        Unexplained::Failed { fault } => write_line(fault, out),
        Unexplained::NoSuchLine { page, line } => write_place(out, "fault 92 page ", *page, *line),
        Unexplained::NoSuchWheel { wheel } => write_between(out, "fault 93 wheel ", *wheel, "\n"),
    }
}

/// Tells why a wheel is not explained: the program ends with its status. Where the line can't be written, the status alone tells of it.
pub fn tell_unexplained<V: Write>(told: &Unexplained, faults: &mut V) -> Ending
    ensures status { result.status ≡ unexplained_status told.now }
    ensures line { IsToldUnexplained told.now result.is_told (V.contents faults.old) (V.contents faults.new) }
{
    let is_told = write_unexplained(told, faults).is_ok();
    let status = told.status();
    Ending { status, is_told }
}
