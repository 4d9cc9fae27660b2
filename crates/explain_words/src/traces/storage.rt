//! What is told of storage units.

ghost use Rattle.std.specs.Prelude.{◌≡◌, ◌≤◌, ◌++◌, OnOk, codes, decimal, map};
ghost use Rattle.card_code.specs.Rows.{rows};
ghost use Rattle.print_unit.specs.ZeroControl.{received_set};
ghost use Rattle.storage_units.specs.Storage.{holds, storage_ended};
ghost use Rattle.explain_words.specs.TracesWords.Lines.{storages_told};
ghost use Rattle.explain_words.specs.TracesWords.TracedUnits.{bracketed, column_character, storage_told, storage_text};

use crate::traces::places::write_bracketed;
use card_code::{Column, ROWS};
use chart_lines::tokens::is;
use chart_numerals::write_numbered;
use net::Cycle;
use std::io;
use std::io::Write;
use storage_units::Storage;

// The rows that a column holds.
fn rows_held(storage: &Storage, column: u8) -> Column
    ensures { result ≡ received_set (map (λ row. holds storage.now row column) rows) }
{
    let mut held = Column::blank();
    for place in (0..12).rev() {
        if storage.holds(ROWS[place], column) {
            held = held.with_row(ROWS[place]);
        }
    }
    held
}

// The character that a column holds.
fn column_character(storage: &Storage, column: u8) -> u8
    ensures { result ≡ column_character storage.now column }
{
    rows_held(storage, column).print_character()
}

#[tactic(auto, using(crate::proofs::TracesWords::Pieces::character_more))]
// The characters that a storage unit holds.
fn characters_held(storage: &Storage) -> [u8; 16]
    ensures { result ≡ storage_text storage.now }
{
    let mut characters = [b' '; 16];
    for place in 0..16 {
        characters[place] = column_character(storage, place as u8 + 1);
    }
    characters
}

// A storage unit by its place, and what it holds.
fn write_held(text: &mut Vec<u8>, place: u8, held: &[u8]) -> io::Result<()>
    ensures { OnOk result (text.new.items ≡ text.old.items ++ (codes "   storage " ++ decimal place ++ codes " " ++ bracketed held.now)) }
{
    write_numbered(text, "   storage ", place)?;
    text.write_all(b" ")?;
    write_bracketed(text, held)
}

// A storage unit, where it holds other characters behind the cycle.
fn write_storage(text: &mut Vec<u8>, storage: &Storage, behind: &Storage) -> io::Result<()>
    ensures { OnOk result (text.new.items ≡ text.old.items ++ storage_told storage.now behind.now) }
{
    let held = characters_held(behind);
    if is(&characters_held(storage), &held) {
        return Ok(());
    }
    write_held(text, storage.place(), &held)
}

// A storage unit in a cycle, behind its points.
fn write_storage_in(text: &mut Vec<u8>, cycle: Cycle, storage: &Storage) -> io::Result<()>
    ensures { OnOk result (text.new.items ≡ text.old.items ++ storage_told storage.now (storage_ended storage.now cycle)) }
{
    let behind = storage.behind_end(cycle);
    write_storage(text, storage, &behind)
}

#[tactic(auto, using(crate::proofs::TracesWords::Pieces::piece_more))]
// The storage units that hold other characters behind a cycle than before its end.
pub(crate) fn write_storages(
    text: &mut Vec<u8>,
    cycle: Cycle,
    storages: &[Storage],
) -> io::Result<()>
    ensures { OnOk result (text.new.items ≡ text.old.items ++ storages_told cycle storages.now) }
{
    for storage in storages {
        write_storage_in(text, cycle, storage)?;
    }
    Ok(())
}
