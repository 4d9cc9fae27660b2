//! Putting what lines say to a setup.

ghost use Rattle.std.specs.Prelude.{◌≡◌, ◌≤◌, true, Ok};
ghost use Rattle.hubs.specs.Jacks.{is_jack_in_range};
ghost use Rattle.wiring_text.specs.WiringReader.TextReading.{IsSayable, Puts};
ghost use Rattle.wiring_text.specs.declared.statement.Statement.TheVariants.{Stop, Plug, Wire};

use crate::{HubName, Statement};
use hubs::setups::{Setup, SetupFault};
use hubs::{Hub, Jack};

/// Puts what a line says to a setup, and answers false where it was there.
///
/// Refused with `NotExit`, `NotEntry`, `CarryRing` or `TapeFault` where the panel can't have it, and with `Memory` where no
/// memory is left.
pub(crate) fn put(setup: &mut Setup, statement: Statement) -> Result<bool, SetupFault>
    requires { IsSayable statement }
    ensures { Puts statement setup.old result setup.new }
{
    match statement {
        Statement::Stop(channel, line) => put_stop(setup, channel, line),
        Statement::Plug(jack) => Ok(put_jack(setup, jack)),
        Statement::Wire(exit, entry) => put_wire(setup, exit, entry),
    }
}

/// Punches a stop.
fn put_stop(setup: &mut Setup, channel: u8, line: u16) -> Result<bool, SetupFault>
    requires from { 2 ≤ channel }
    requires to { channel ≤ 11 }
    ensures { Puts (Stop channel line) setup.old result setup.new }
{
    if line > 255 {
        return Err(SetupFault::TapeFault);
    }
    setup.punch(channel, line as u8)
}

/// Plugs a jack.
fn put_jack(setup: &mut Setup, jack: Jack) -> bool
    requires { is_jack_in_range jack ≡ true }
    ensures { Puts (Plug jack) setup.old (Ok result) setup.new }
{
    setup.plug(jack)
}

/// Adds a wire between named hubs.
fn put_wire(setup: &mut Setup, exit: HubName, entry: HubName) -> Result<bool, SetupFault>
    ensures { Puts (Wire exit entry) setup.old result setup.new }
{
    let Some(from) = Hub::named(exit.letters, exit.numbers) else {
        return Err(SetupFault::NotExit);
    };
    if !from.is_exit() {
        return Err(SetupFault::NotExit);
    }
    let Some(to) = Hub::named(entry.letters, entry.numbers) else {
        return Err(SetupFault::NotEntry);
    };
    setup.add(from, to)
}
