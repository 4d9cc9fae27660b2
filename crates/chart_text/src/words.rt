//! What single tokens are: names, the characters of literals, marks, words.

ghost use Rattle.std.specs.Prelude.{◌≡◌, ◌+◌, ◌-◌, ◌*◌, ◌<◌, ◌≤◌, length, IfSome, IfOk, IsTrue, option_map, ◌++◌, replicate};
ghost use Rattle.std.specs.List.{list_all};
ghost use Rattle.chart_text.specs.HelperWords.{name_of, literal_of, is_literal_text, mark_of, keyword_of, level_of, control_level_of, heading_line_of, spacing_lines_of};
ghost use Rattle.chart_lines.specs.ChartsWords.Name.{begins_with_letter, is_letter_or_digit};
ghost use Rattle.chart_lines.specs.ChartsWords.Literal.{is_printable};

use card_code::Column;
use chart_lines::charts::{
    ControlLevel, HeadingLine, Level, Literal, MAX_LITERAL, Mark, Name, Spacing,
};
use chart_lines::tokens::{is, read_number};
use std::alloc::{AllocError, Global};

/// The words that forms begin with.
#[derive(Clone, Copy, Debug, PartialEq, Eq)]
pub(crate) enum Keyword {
    Field,
    Control,
    Print,
    Head,
    Detail,
    Total,
    Space,
    After,
    Form,
    Tape,
}

/// Whether a byte is a capital letter or a digit.
fn is_letter_or_digit(byte: u8) -> bool
    ensures { result ≡ is_letter_or_digit byte }
{
    byte.is_ascii_uppercase() || byte.is_ascii_digit()
}

/// Whether bytes are letters and digits, a letter first.
fn begins_with_letter(token: &[u8]) -> bool
    ensures { result ≡ begins_with_letter token.now }
{
    match token {
        [first, others @ ..] => first.is_ascii_uppercase() && are_letters_or_digits(others),
        [] => false,
    }
}

/// Whether all bytes are letters or digits.
fn are_letters_or_digits(bytes: &[u8]) -> bool
    ensures { result ≡ list_all is_letter_or_digit bytes.now }
{
    bytes.iter().all(|byte| is_letter_or_digit(*byte))
}

/// The name that a token is: a letter and up to 7 letters or digits.
#[tactic(auto, unfolding(crate::specs::HelperWords::name_of), using(crate::proofs::WordGrammar::has_shape))]
pub(crate) fn read_name(token: &[u8]) -> Option<Name>
    ensures { result ≡ name_of token.now }
{
    if token.len() > 8 || !begins_with_letter(token) {
        return None;
    }
    Some(Name::from_characters(filled(token)))
}

/// A token of up to 8 characters, filled with blanks to 8.
fn filled(token: &[u8]) -> [u8; 8]
    requires { length token.now ≤ 8 }
    ensures { result ≡ token.now ++ replicate (8 - length token.now) 32 }
{
    let mut characters = [b' '; 8];
    characters[..token.len()].copy_from_slice(token);
    characters
}

/// Whether a byte can stand in a literal: a print character or a blank.
fn is_printable(byte: u8) -> bool
    ensures { result ≡ is_printable byte }
{
    Column::of_char(char::from(byte)).is_some() && byte != b'!'
}

/// Whether bytes are the characters of a literal.
fn is_literal_text(characters: &[u8]) -> bool
    ensures { result ≡ is_literal_text characters.now }
{
    !characters.is_empty() && characters.len() <= MAX_LITERAL && are_printable(characters)
}

/// Whether all bytes can stand in a literal.
fn are_printable(bytes: &[u8]) -> bool
    ensures { result ≡ list_all is_printable bytes.now }
{
    bytes.iter().all(|byte| is_printable(*byte))
}

/// The characters of the literal that a token is.
#[tactic(auto, unfolding(crate::specs::HelperWords::literal_of))]
fn literal_characters(token: &[u8]) -> Option<&[u8]>
    ensures value { option_map (λ characters. characters.now) result ≡ literal_of token.now }
    ensures text { IfSome result (λ characters. IsTrue (is_literal_text characters.now)) }
{
    match token {
        [b'\'', characters @ .., b'\''] if is_literal_text(characters) => Some(characters),
        _ => None,
    }
}

/// The literal that a token is.
pub(crate) fn read_literal(alloc: Global, token: &[u8]) -> Result<Option<Literal>, AllocError>
    ensures { IfOk result (λ literal. literal ≡ literal_of token.now) }
{
    let Some(characters) = literal_characters(token) else {
        return Ok(None);
    };
    Ok(Some(Literal::from_vec(Vec::from_slice(alloc, characters)?)))
}

/// The mark that a token is.
pub(crate) fn read_mark(token: &[u8]) -> Option<Mark>
    ensures { result ≡ mark_of token.now }
{
    if is(token, b"CR") {
        Some(Mark::Credit)
    } else if is(token, b"-") {
        Some(Mark::Minus)
    } else {
        None
    }
}

/// The level that a token is.
#[tactic(auto, unfolding(crate::specs::HelperWords::level_of))]
pub(crate) fn read_level(token: &[u8]) -> Option<Level>
    ensures { result ≡ level_of token.now }
{
    Level::with_number(read_number(token)?)
}

/// The control level that a token is.
#[tactic(auto, unfolding(crate::specs::HelperWords::control_level_of))]
pub(crate) fn read_control_level(token: &[u8]) -> Option<ControlLevel>
    ensures { result ≡ control_level_of token.now }
{
    ControlLevel::with_number(read_number(token)?)
}

/// The heading line that a token is.
#[tactic(auto, unfolding(crate::specs::HelperWords::heading_line_of))]
pub(crate) fn read_heading_line(token: &[u8]) -> Option<HeadingLine>
    ensures { result ≡ heading_line_of token.now }
{
    HeadingLine::with_number(read_number(token)?)
}

/// The spacing that a token is.
#[tactic(auto, unfolding(crate::specs::HelperWords::spacing_lines_of))]
pub(crate) fn read_spacing_lines(token: &[u8]) -> Option<Spacing>
    ensures { result ≡ spacing_lines_of token.now }
{
    Spacing::with_number(read_number(token)?)
}

/// The word that a line begins with.
pub(crate) fn read_keyword(token: &[u8]) -> Option<Keyword>
    ensures { result ≡ keyword_of token.now }
{
    if is(token, b"FIELD") {
        Some(Keyword::Field)
    } else if is(token, b"CONTROL") {
        Some(Keyword::Control)
    } else if is(token, b"PRINT") {
        Some(Keyword::Print)
    } else if is(token, b"HEAD") {
        Some(Keyword::Head)
    } else if is(token, b"DETAIL") {
        Some(Keyword::Detail)
    } else if is(token, b"TOTAL") {
        Some(Keyword::Total)
    } else if is(token, b"SPACE") {
        Some(Keyword::Space)
    } else if is(token, b"AFTER") {
        Some(Keyword::After)
    } else if is(token, b"FORM") {
        Some(Keyword::Form)
    } else if is(token, b"TAPE") {
        Some(Keyword::Tape)
    } else {
        None
    }
}
