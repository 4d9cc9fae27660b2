//! The card code as tables, read both ways by one look-up.

ghost use Rattle.std.specs.Prelude.{◌≡◌, ◌<◌, ◌%◌, ◌↔◌, ℕ, length, Contains, IfSome, IsTrue};
ghost use Rattle.std.specs.Option.{option_map};
ghost use Rattle.card_code.specs.CardCode.{code, deck_character, is_one_to_one, rows_of};
ghost use Rattle.card_code.specs.Columns.{column_of};
ghost use Rattle.card_code.specs.Tables.{entry, matching};

/// The bits of the twelve rows.
pub const ALL_ROWS: u16 = 0xfff;

/// What stands for the set of a byte that is no deck character: it has bits behind those of the rows, and no row.
const NONE: u16 = 0xf000;

/// The set of each byte's rows, by their places: an A, with the rows 12 and 1 at the places 11 and 8, has 0x0900.
#[rattlefmt::skip]
const LISTED: [u16; 256] = [
    NONE, NONE, NONE, NONE, NONE, NONE, NONE, NONE, NONE, NONE, NONE, NONE, NONE, NONE, NONE, NONE,
    NONE, NONE, NONE, NONE, NONE, NONE, NONE, NONE, NONE, NONE, NONE, NONE, NONE, NONE, NONE, NONE,
    0x0000, 0x0600, NONE, 0x0042, 0x0442, 0x0222, 0x0800, NONE,  // from blank to '
    NONE, NONE, 0x0422, NONE, 0x0242, 0x0400, 0x0842, 0x0300,  // from ( to /
    0x0200, 0x0100, 0x0080, 0x0040, 0x0020, 0x0010, 0x0008, 0x0004,  // from 0 to 7
    0x0002, 0x0001, NONE, NONE, NONE, NONE, NONE, NONE,  // from 8 to ?
    0x0022, 0x0900, 0x0880, 0x0840, 0x0820, 0x0810, 0x0808, 0x0804,  // from @ to G
    0x0802, 0x0801, 0x0500, 0x0480, 0x0440, 0x0420, 0x0410, 0x0408,  // from H to O
    0x0404, 0x0402, 0x0401, 0x0280, 0x0240, 0x0220, 0x0210, 0x0208,  // from P to W
    0x0204, 0x0202, 0x0201, NONE, NONE, NONE, NONE, NONE,  // from X to _
    NONE, NONE, NONE, NONE, NONE, NONE, NONE, NONE, NONE, NONE, NONE, NONE, NONE, NONE, NONE, NONE,
    NONE, NONE, NONE, NONE, NONE, NONE, NONE, NONE, NONE, NONE, NONE, NONE, NONE, NONE, NONE, NONE,
    NONE, NONE, NONE, NONE, NONE, NONE, NONE, NONE, NONE, NONE, NONE, NONE, NONE, NONE, NONE, NONE,
    NONE, NONE, NONE, NONE, NONE, NONE, NONE, NONE, NONE, NONE, NONE, NONE, NONE, NONE, NONE, NONE,
    NONE, NONE, NONE, NONE, NONE, NONE, NONE, NONE, NONE, NONE, NONE, NONE, NONE, NONE, NONE, NONE,
    NONE, NONE, NONE, NONE, NONE, NONE, NONE, NONE, NONE, NONE, NONE, NONE, NONE, NONE, NONE, NONE,
    NONE, NONE, NONE, NONE, NONE, NONE, NONE, NONE, NONE, NONE, NONE, NONE, NONE, NONE, NONE, NONE,
    NONE, NONE, NONE, NONE, NONE, NONE, NONE, NONE, NONE, NONE, NONE, NONE, NONE, NONE, NONE, NONE,
    NONE, NONE, NONE, NONE, NONE, NONE, NONE, NONE, NONE, NONE, NONE, NONE, NONE, NONE, NONE, NONE,
    NONE, NONE, NONE, NONE, NONE, NONE, NONE, NONE, NONE, NONE, NONE, NONE, NONE, NONE, NONE, NONE,
];

/// How many places the sets of rows have: each stands at the place that is its remainder by 187, and no two at one place.
const PLACES: usize = 187;

/// The set of rows at each place. The blank's set, which is empty, stands at the first place, and where there is no other.
#[rattlefmt::skip]
const SETS: [u16; PLACES] = [
    0, 0x0001, 0x0002, 0, 0x0004, 0, 0, 0x0810, 0x0008, 0,
    0, 0, 0, 0, 0, 0x0240, 0x0010, 0x0242, 0, 0,
    0x0300, 0, 0, 0x0820, 0, 0, 0, 0, 0, 0,
    0x0480, 0, 0x0020, 0, 0x0022, 0, 0, 0, 0, 0,
    0x0600, 0, 0, 0, 0, 0, 0, 0, 0, 0,
    0, 0, 0, 0, 0, 0x0840, 0, 0x0842, 0, 0,
    0x0900, 0, 0, 0, 0x0040, 0, 0x0042, 0, 0, 0x0100,
    0, 0, 0, 0, 0, 0, 0, 0, 0, 0x0280,
    0, 0, 0, 0, 0, 0, 0, 0, 0, 0x0400,
    0x0401, 0x0402, 0, 0x0404, 0, 0, 0, 0x0408, 0, 0,
    0, 0, 0, 0, 0, 0x0410, 0, 0, 0, 0,
    0, 0, 0, 0, 0, 0, 0, 0, 0, 0x0880,
    0, 0x0420, 0, 0x0422, 0, 0, 0, 0, 0x0080, 0,
    0, 0, 0, 0, 0, 0, 0, 0, 0x0200, 0x0201,
    0x0202, 0, 0x0204, 0, 0, 0, 0x0208, 0, 0, 0,
    0, 0, 0, 0x0440, 0x0210, 0x0442, 0, 0, 0x0500, 0,
    0, 0, 0, 0, 0, 0, 0, 0, 0, 0,
    0x0220, 0, 0x0222, 0, 0, 0, 0, 0, 0x0800, 0x0801,
    0x0802, 0, 0x0804, 0, 0, 0, 0x0808,
];

/// The deck character of the set at each place.
#[rattlefmt::skip]
const CHARACTERS: [u8; PLACES] = [
    b' ', b'9', b'8', b' ', b'7', b' ', b' ', b'E', b'6', b' ',
    b' ', b' ', b' ', b' ', b' ', b'T', b'5', b',', b' ', b' ',
    b'/', b' ', b' ', b'D', b' ', b' ', b' ', b' ', b' ', b' ',
    b'K', b' ', b'4', b' ', b'@', b' ', b' ', b' ', b' ', b' ',
    b'!', b' ', b' ', b' ', b' ', b' ', b' ', b' ', b' ', b' ',
    b' ', b' ', b' ', b' ', b' ', b'C', b' ', b'.', b' ', b' ',
    b'A', b' ', b' ', b' ', b'3', b' ', b'#', b' ', b' ', b'1',
    b' ', b' ', b' ', b' ', b' ', b' ', b' ', b' ', b' ', b'S',
    b' ', b' ', b' ', b' ', b' ', b' ', b' ', b' ', b' ', b'-',
    b'R', b'Q', b' ', b'P', b' ', b' ', b' ', b'O', b' ', b' ',
    b' ', b' ', b' ', b' ', b' ', b'N', b' ', b' ', b' ', b' ',
    b' ', b' ', b' ', b' ', b' ', b' ', b' ', b' ', b' ', b'B',
    b' ', b'M', b' ', b'*', b' ', b' ', b' ', b' ', b'2', b' ',
    b' ', b' ', b' ', b' ', b' ', b' ', b' ', b' ', b'0', b'Z',
    b'Y', b' ', b'X', b' ', b' ', b' ', b'W', b' ', b' ', b' ',
    b' ', b' ', b' ', b'L', b'V', b'$', b' ', b' ', b'J', b' ',
    b' ', b' ', b' ', b' ', b' ', b' ', b' ', b' ', b' ', b' ',
    b'U', b' ', b'%', b' ', b' ', b' ', b' ', b' ', b'&', b'I',
    b'H', b' ', b'G', b' ', b' ', b' ', b'F',
];

/// The law of the card code: it has 48 characters, no character and no set of rows stands twice in
/// it, so its two directions are inverse. The call does nothing.
pub fn code_is_one_to_one()
    ensures size { length code ≡ 48 }
    ensures distinct { IsTrue (is_one_to_one code) }
    ensures pairs { (character set : ℕ) → Contains code (character, set) ↔ (rows_of character ≡ Some set) }
    ensures inverse { (character set : ℕ) → (rows_of character ≡ Some set) ↔ (deck_character set ≡ Some character) }
{}

/// The set of the rows of a byte, by their places. That of a byte that is no deck character has bits behind those of the rows.
pub fn listed_set(byte: u8) -> u16
    ensures { option_map column_of (entry result) ≡ rows_of byte }
{
    LISTED[byte as usize]
}

/// The set of the rows of a deck character, by their places, or `None` for a character that is none.
pub fn set_of_character(character: char) -> Option<u16>
    ensures rows { option_map column_of result ≡ rows_of character }
    ensures small { IfSome result (λ set. set < 4096) }
{
    let number = u32::from(character);
    if number >= 256 {
        return None;
    }
    let set = listed_set(number as u8);
    if set <= ALL_ROWS { Some(set) } else { None }
}

/// The deck character of a set of rows by their places, or `None` where no character has exactly these.
pub fn character_of_set(set: u16) -> Option<u8>
    requires { set < 4096 }
    ensures { result ≡ deck_character (column_of set) }
{
    matching_character(&SETS, &CHARACTERS, set)
}

/// The character at the place of a set, or `None` where that place has another set.
fn matching_character(sets: &[u16; PLACES], characters: &[u8; PLACES], set: u16) -> Option<u8>
    ensures { result ≡ matching sets.now characters.now set }
{
    let place = set as usize % PLACES;
    if sets[place] == set {
        Some(characters[place])
    } else {
        None
    }
}
