//! Laws of a storage unit through a cycle. Each is a function that does nothing: its contract is the law.

ghost use Rattle.std.specs.Prelude.{◌≡◌, ◌≤◌, ◌&&◌, ℕ, Bool, true, false, List, ◌∷◌, map};
ghost use Rattle.card_code.specs.declared.row.Row.{Row as CardRow};
ghost use Rattle.hubs.specs.HubTable.Ranges.{is_within};
ghost use Rattle.hubs.specs.declared.hub.Hub.{Hub};
ghost use Rattle.hubs.specs.declared.hub.Hub.TheVariants.{SX, SE, SI, SO};
ghost use Rattle.net.specs.WholeCycles.{after_points};
ghost use Rattle.net.specs.declared.cycle.Cycle.{Cycle};
ghost use Rattle.net.specs.declared.cycle.Point.{Point};
ghost use Rattle.net.specs.declared.cycle.Point.TheVariants.{C, Row};
ghost use Rattle.storage_units.specs.Storage.{StorageState, holds, storage_at_start, storage_emits, storage_number, storage_sensed};
ghost use Rattle.storage_units.specs.WholeCycles.{after_cycle};

/// A unit that is told to read in holds, after the cycle, each row exactly in the columns whose entries were impulsed at
/// the row's point, in all sixteen columns, whatever it held before.
pub fn read_in_is_held_whole()
    ensures { (storage : StorageState) (cycle : Cycle) (pictures : Point → Hub → Bool) (row : CardRow) (column : ℕ)
        → pictures C (SI storage.place) ≡ true
        → holds (after_cycle cycle pictures storage) row column
        ≡ (is_within column 16 && pictures (Row row) (SE storage.place column)) }
{}

/// A unit that isn't told to read in holds after the cycle what it held before, also where it read out.
pub fn what_is_held_is_kept()
    ensures { (storage : StorageState) (cycle : Cycle) (pictures : Point → Hub → Bool) (row : CardRow) (column : ℕ)
        → pictures C (SI storage.place) ≡ false
        → holds (after_cycle cycle pictures storage) row column ≡ holds storage row column }
{}

/// At a row, whichever rows came before it in the cycle, a unit emits what it held at the start of the cycle, and only where
/// it was told to read out at the control point.
pub fn read_out_shows_the_start()
    ensures { (storage : StorageState) (cycle : Cycle) (pictures : Point → Hub → Bool) (before : List CardRow) (row : CardRow) (column : ℕ)
        → storage_emits (after_points storage_sensed cycle pictures (C ∷ map Row before) storage) cycle (Row row) (SX storage.place column)
        ≡ (pictures C (SO storage.place) && holds storage row column) }
{}

/// A unit begins with its number.
pub fn storage_units_are_numbered()
    ensures { (unit : ℕ) → 35 ≤ unit → unit ≤ 38 → storage_number (storage_at_start unit) ≡ unit }
{}
