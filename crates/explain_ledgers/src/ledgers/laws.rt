//! Laws of ledgers. Each is a function that does nothing: its contract is the law.

ghost use Rattle.explain_ledgers.specs.LedgersWords.Coupled.{CoupledLedgersTellNumbers};
ghost use Rattle.explain_ledgers.specs.LedgersWords.Ledgers.{EntriesAreSums, LedgersAreSums, LedgersTellNumbers};
ghost use Rattle.explain_ledgers.specs.LedgersWords.Cycles.{EntriesTellCycles, PlacesAreOne};
ghost use Rattle.explain_ledgers.specs.LedgersWords.Turns.{TurnsEnterNumbers};

/// The numbers of a ledger chain from 0 to the number that the group holds.
pub fn ledgers_tell_numbers()
    ensures { LedgersTellNumbers }
{}

/// The numbers of a ledger of two groups chain from 0 to the number that they stand for.
pub fn coupled_ledgers_tell_numbers()
    ensures { CoupledLedgersTellNumbers }
{}

/// Each entry of one group is a sum, and where the group didn't turn it holds the sum of what came to it. If an entry, of one group or of two, turned
/// a number, then the number that was entered is the one that stood before, on every panel. So the sum of such an entry of one group makes the number
/// after it the complement.
pub fn ledgers_are_sums()
    ensures each { EntriesAreSums }
    ensures all { LedgersAreSums }
    ensures turned { TurnsEnterNumbers }
{}

/// Of a run there is one place behind so many cycles, and each entry tells of the one that it names.
pub fn entries_tell_cycles()
    ensures one { PlacesAreOne }
    ensures tell { EntriesTellCycles }
{}
