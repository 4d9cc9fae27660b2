//! The words of layouts and of cards with what their fields read.

// What is wrong with a column.
pub(crate) const NO_WHEEL_PRINTS_THIS_CHARACTER: &str = "no wheel prints this character";

pub(crate) const THIS_IS_NO_DIGIT: &str = "this is no digit";

pub(crate) const ROW_12_IS_PUNCHED: &str = "row 12 is punched, and no column of an amount has that";

pub(crate) const ROW_11_IS_PUNCHED: &str = "row 11 is punched, and only a sign column has that";

pub(crate) const A_DIGIT_IS_MISSING: &str = "a digit is missing";

pub(crate) const COLUMN: &str = "column ";

// Fields.
pub(crate) const IN_COLUMN: &str = ", column ";

pub(crate) const IN_COLUMNS: &str = ", columns ";

pub(crate) const SIGN_IN_COLUMN: &str = ", sign in column ";

// Items of a printed line.
pub(crate) const WHEEL: &str = "wheel ";

pub(crate) const WHEELS: &str = "wheels ";

pub(crate) const ON_THE_FIRST_CARD: &str = " on the first card of each group of level ";

pub(crate) const TOTAL_OF: &[u8] = b"total of ";

pub(crate) const OF_LINE: &str = " (line ";

// Printed lines.
pub(crate) const WHAT_CHARACTERS_STAND_FOR: &str =
    "x: a character of a text. z: a digit, blank if it is a leading zero. 9: any other digit.\n";

pub(crate) const HEAD: &str = "HEAD ";

pub(crate) const TOTAL: &str = "TOTAL ";

// Rulers.
pub(crate) const COLUMN_RULER: &str =
    "        10        20        30        40        50        60        70        80\n12345678901234567890123456789012345678901234567890123456789012345678901234567890\n";

pub(crate) const WHEEL_RULER: &str =
    "        10        20        30        40        50        60        70        80        90       100       110       120\n123456789012345678901234567890123456789012345678901234567890123456789012345678901234567890123456789012345678901234567890\n";
