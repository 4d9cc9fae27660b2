//! Laws of impulsed hubs. The functions do nothing: the contract of each is the law.

ghost use Rattle.std.specs.Prelude.{Bool, ◌↔◌};
ghost use Rattle.hubs.specs.SetupsWords.Wiring.{Wiring, LeadsToEntries};
ghost use Rattle.hubs.specs.declared.hub.Hub.{Hub};
ghost use Rattle.net.specs.Impulsed.{IsImpulsed};
ghost use Rattle.net.specs.Laws.{AreAllOpen, EmitsOrIsFed, ExitsHaveAPicture, IsLeastSet, WiresMakeThePicture};

/// The impulsed hubs are the least set that holds the emitting exits and all that wires and closed contacts lead to
/// from it.
pub fn impulsed_hubs_are_the_least_set()
    ensures { (wiring : Wiring) (exits closed : Hub → Bool) → IsLeastSet wiring exits closed }
{}

/// Every set of emitting exits has a picture, whatever the wires are and whichever contacts are closed.
pub fn emitting_exits_have_a_picture()
    ensures { ExitsHaveAPicture }
{}

/// Where no contact is closed, wires to entries lead no further: a hub is impulsed exactly where it emits or a wire
/// leads to it from an emitting exit.
pub fn wires_to_entries_lead_no_further()
    ensures { (wiring : Wiring) (exits closed : Hub → Bool) (hub : Hub)
        → LeadsToEntries wiring
        → AreAllOpen closed
        → IsImpulsed wiring exits closed hub ↔ EmitsOrIsFed wiring exits hub }
{}

/// Where no hub that a contact leads from emits or has a wire that leads to it, the emitting exits and what wires lead to from them
/// are the picture, whichever contacts are closed.
pub fn wires_make_the_picture()
    ensures { WiresMakeThePicture }
{}
