//! Laws of setups.

ghost use Rattle.std.specs.Prelude.{◌↔◌, IsTrue};
ghost use Rattle.hubs.specs.declared.hub.Hub.{Hub};
ghost use Rattle.hubs.specs.SetupsWords.Wiring.{Wiring, HasWire, is_wired};

/// `is_wired` is true where a wire leads from the exit to the entry, and false elsewhere.
pub fn is_wired_tells_the_wires()
    ensures { (wiring : Wiring) (exit entry : Hub) → IsTrue (is_wired wiring exit entry) ↔ HasWire wiring exit entry }
{}
