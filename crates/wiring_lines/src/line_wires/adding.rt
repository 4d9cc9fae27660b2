//! Adding wires whose hubs the panel has.

ghost use Rattle.std.specs.Prelude.{◌≡◌, true, OnOk};
ghost use Rattle.hubs.specs.Carries.{keeps_carry};
ghost use Rattle.hubs.specs.Hubs.{is_exit_hub, is_entry_hub};
ghost use Rattle.wiring_lines.specs.LineWires.HelperAdds.{Adds, One};

use hubs::Hub;
use hubs::setups::Setup;
use std::alloc::AllocError;

/// Adds a wire. Its hubs are in range, and a wire of a carry makes a ring of one counter group or leads from one group of 8 positions
/// to another. Where it agrees with the carry wires that are there, want of memory is the only refusal; where one doesn't agree, the
/// wire is refused for that and answered alike. The wires of a chart agree with one another.
pub fn connect(setup: &mut Setup, exit: Hub, entry: Hub) -> Result<(), AllocError>
    requires exit { is_exit_hub exit ≡ true }
    requires entry { is_entry_hub entry ≡ true }
    requires carry { keeps_carry exit entry ≡ true }
    ensures { OnOk result (Adds (One exit entry) setup.old setup.new) }
{
    match setup.add(exit, entry) {
        Ok(_) => Ok(()),
        Err(_) => Err(AllocError),
    }
}
