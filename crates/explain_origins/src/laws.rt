//! Laws of origins. Each is a function that does nothing: its contract is the law.

ghost use Rattle.explain_origins.specs.Cards.{CardsAreNumbered};
ghost use Rattle.explain_origins.specs.Carriage.{CarriageIsAskedAsTold};
ghost use Rattle.explain_origins.specs.Changes.{LatchesAreTested, PilotsArePickedUp, StorageIsKept};

/// A storage unit holds what the last cycle left that changed its text.
pub fn storage_is_kept()
    ensures { StorageIsKept }
{}

/// The pilots stand as the last cycle that moves them picked them up.
pub fn pilots_are_picked_up()
    ensures { PilotsArePickedUp }
{}

/// A balance latch stands as the last cycle left it that tested it: it is set if the number had a 9 on top at the end of that cycle.
pub fn latches_are_tested()
    ensures { LatchesAreTested }
{}

/// In each cycle of a run the card at second reading is the one with the number that is told, and at first reading stands the next one.
pub fn cards_are_numbered()
    ensures { CardsAreNumbered }
{}

/// What wires tell of spacing, of a skip and of a new page in a cycle is what the carriage is asked for at its control point. If nothing is told of
/// one of these, and wires lead there from no contact, the carriage isn't asked for it.
pub fn carriage_is_asked_as_told()
    ensures { CarriageIsAskedAsTold }
{}
