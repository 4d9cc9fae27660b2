//! Laws of the hub table.

ghost use Rattle.std.specs.Prelude.{◌≡◌, ◌++◌, true, false, All, Contains};
ghost use Rattle.hubs.specs.HubTable.HubTable.{row_of, is_unbroken, exit_kinds, entry_kinds};
ghost use Rattle.hubs.specs.declared.hub_table.letters.Letters.{Letters};

use crate::hub_table::letters::KINDS;

/// `KINDS` has each kind of hub, the exits first. They follow one another without a gap, the exits from 0 to 1040, the
/// entries from there to 1936, and no two kinds are spelled alike.
pub fn hub_table_is_unbroken()
    ensures kinds { KINDS ≡ exit_kinds ++ entry_kinds }
    ensures each { (letters : Letters) → Contains KINDS letters }
    ensures exits { All (λ letters. (row_of letters).is_exit ≡ true) exit_kinds }
    ensures entries { All (λ letters. (row_of letters).is_exit ≡ false) entry_kinds }
    ensures exits_unbroken { is_unbroken 0 1040 exit_kinds ≡ true }
    ensures entries_unbroken { is_unbroken 1040 1936 entry_kinds ≡ true }
    ensures spelled { (one other : Letters) → (row_of one).spelled ≡ (row_of other).spelled → one ≡ other }
{}
