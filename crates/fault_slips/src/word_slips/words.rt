//! What single words are.

ghost use Rattle.std.specs.Prelude.{◌≡◌};
ghost use Rattle.std.specs.List.{list_all};
ghost use Rattle.chart_lines.specs.ChartsWords.Name.{begins_with_letter, is_letter_or_digit};
ghost use Rattle.fault_slips.specs.WordSlips.Words as law;

use chart_lines::tokens::{read_number, read_number_to};

/// Whether a word is a number.
pub(crate) fn is_number(text: &[u8]) -> bool
    ensures { result ≡ law.is_number text.now }
{
    read_number(text).is_some()
}

/// Whether a word is a number of 1 to the greatest.
pub(crate) fn is_up_to(greatest: u8, text: &[u8]) -> bool
    ensures { result ≡ law.is_up_to greatest text.now }
{
    read_number_to(greatest, text).is_some()
}

/// Whether a byte is a capital letter or a digit.
fn is_letter_or_digit(byte: u8) -> bool
    ensures { result ≡ is_letter_or_digit byte }
{
    byte.is_ascii_uppercase() || byte.is_ascii_digit()
}

/// Whether all bytes are capital letters or digits.
fn are_letters_or_digits(bytes: &[u8]) -> bool
    ensures { result ≡ list_all is_letter_or_digit bytes.now }
{
    bytes.iter().all(|byte| is_letter_or_digit(*byte))
}

/// Whether bytes are letters and digits, a letter first.
fn begins_with_letter(text: &[u8]) -> bool
    ensures { result ≡ begins_with_letter text.now }
{
    match text {
        [] => false,
        [first, others @ ..] => first.is_ascii_uppercase() && are_letters_or_digits(others),
    }
}

/// Whether a word is a name.
pub(crate) fn is_name(text: &[u8]) -> bool
    ensures { result ≡ law.is_name text.now }
{
    text.len() <= 8 && begins_with_letter(text)
}

/// Whether a word is a literal of 1 to 120 characters, whatever these are.
pub(crate) fn is_literal(text: &[u8]) -> bool
    ensures { result ≡ law.is_literal text.now }
{
    match text {
        [] => false,
        [first, others @ ..] => *first == b'\'' && 2 <= others.len() && others.len() <= 121,
    }
}
