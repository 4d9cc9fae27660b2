//! Laws of ledgers. Each function does nothing: its contract is the law.

ghost use Rattle.proof_laws.specs.LedgerAmounts.Amounts.{KeptLedgersAreAmounts, LedgersAreAmounts};
ghost use Rattle.proof_laws.specs.LedgerAmounts.Changes.{LedgersHoldAllChanges, LedgersHoldNoOthers, LedgersRise};
ghost use Rattle.proof_laws.specs.LedgerAmounts.CoupledSums.{CoupledEntriesAreSums, CoupledLedgersAreSums};
ghost use Rattle.proof_laws.specs.LedgerAmounts.DigitWays.{DigitsHaveWays, EntriesTellRows};
ghost use Rattle.proof_laws.specs.LedgerAmounts.Examples.{AddUp, TellDigits};
ghost use Rattle.proof_laws.specs.LedgerAmounts.Figures.{FiguresAreTotals};
ghost use Rattle.proof_laws.specs.LedgerAmounts.Found.{TotalsAreFound};
ghost use Rattle.proof_laws.specs.LedgerAmounts.OneLedger.{KeptLedgersAreOne, LedgersAreOne, PlacesHaveLedgers};

use explain_ledgers::cycle_ways::laws::ways_tell_digits;

/// Before the cycle that prints a total, the entries of its ledger are the amounts of the report, with their signs and in their order, and
/// they add up to the total that is printed: those of all cards of its group, each with the number of its card, or, if the amount has a
/// lower total, the totals of all groups of that level in the group, each with the number of its last card. Behind them stands an entry
/// that turned the number, if the total is below 0; if it is 0, there may be one. So it is with what is kept of the ledger that is told for
/// any of the total's counter groups, before the cycle that placed the total's line.
pub fn ledgers_are_amounts()
    ensures all { LedgersAreAmounts }
    ensures kept { KeptLedgersAreAmounts }
{}

/// The figure that is told of a printed total, of each of its counter groups and on each of its wheels that isn't blank, is the total of the
/// report: the edited amount of the group whose total line it is, without the blanks around it.
pub fn figures_are_totals()
    ensures { FiguresAreTotals }
{}

/// On every panel the entries of a ledger are those of all cycles in which something came to its number and behind which it wasn't cleared,
/// and of no other, each once and in the order of the run.
pub fn ledgers_hold_all_changes()
    ensures all { LedgersHoldAllChanges }
    ensures others { LedgersHoldNoOthers }
    ensures once { LedgersRise }
{}

/// On every panel each entry of two groups as one is a sum, unless the groups did different things, and if they never did and the number
/// didn't turn, it is the sum of what came to it.
pub fn coupled_ledgers_are_sums()
    ensures each { CoupledEntriesAreSums }
    ensures all { CoupledLedgersAreSums }
{}

/// Each total of a chart has an account, by every plan that serves the chart, and it is the account that is told for each counter group of the
/// total.
pub fn totals_are_found()
    ensures { TotalsAreFound }
{}

/// On every panel a way is told of each digit, 1 to 9, of the number that came to an account in a cycle of a run, at the row of the digit. So
/// in the text that tells a ledger down to the holes no such digit is left out: the text of an entry ends with a line for each, that of the
/// top digit first, and the line tells the hole and the wire from its brush, or, if there is no such hole, the way. If the number turned, or if
/// only a carry came, no digits are told.
pub fn digits_have_ways()
    ensures told { DigitsHaveWays }
    ensures lines { EntriesTellRows }
{
    ways_tell_digits();
}

/// At each place of a run between two of its cycles an account has a ledger, and no other. So what is kept of it is one, too.
pub fn ledgers_are_one()
    ensures some { PlacesHaveLedgers }
    ensures one { LedgersAreOne }
    ensures kept { KeptLedgersAreOne }
{}

/// 272.34 of three cards, 2936.14 of three groups, and 25.50 below 0 of a debit and a credit.
pub fn examples_add_up()
    ensures { AddUp }
{}

/// 215.40 in a group of eight positions has four lines of digits, and none of them is empty.
pub fn examples_tell_digits()
    ensures { TellDigits }
{}
