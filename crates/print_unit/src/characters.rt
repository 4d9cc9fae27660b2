//! The character of each set of rows, made once so that a line is read off.

ghost use Rattle.std.specs.Prelude.{◌≡◌};
ghost use Rattle.print_unit.specs.RowSets.{HasCharacters};

use card_code::Column;

// How many sets of the twelve rows there are.
const SETS: usize = 4096;

/// The character of each set of rows, as bits by the places of the rows in the order of the points.
#[derive(Debug, Drop)]
pub struct Characters {
    characters: [u8; SETS],
    ghost right: { HasCharacters 4096 characters },
}

impl Characters {
    ghost use Rattle.std.specs.Prelude.{◌≡◌};
    ghost use Rattle.print_unit.specs.RowSets.{rows_in};
    ghost use Rattle.print_unit.specs.ZeroControl.{character_of};

    /// The characters, each read off the card code.
    pub fn new() -> Self {
        let mut characters = [b' '; SETS];
        fill(&mut characters);
        Characters { characters }
    }

    /// The character of a set of rows.
    pub fn of(&self, set: u16) -> u8
        ensures { result ≡ character_of (rows_in set) }
    {
        self.characters[(set & 0xfff) as usize]
    }
}

// Puts the character of each set at its place.
fn fill(characters: &mut [u8; SETS])
    ensures { HasCharacters 4096 characters.new }
{
    for set in 0..SETS {
        characters[set] = Column::of_set(set as u16).print_character();
    }
}
