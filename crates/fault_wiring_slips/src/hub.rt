//! Words that stand where a hub is wanted.

ghost use Rattle.std.specs.Prelude.{◌≡◌, ◌≤◌, length, find};
ghost use Rattle.std.specs.List.{prefix_len};
ghost use Rattle.std.specs.Str.{bytes_eq};
ghost use Rattle.hubs.specs.HubTable.HubTable.{row_of};
ghost use Rattle.fault_slips.specs.LineSlips.Near.{is_near};
ghost use Rattle.wiring_text.specs.WiringReader.Reading.{letters_spelled};
ghost use Rattle.fault_wiring_slips.specs.HubWords as law;

use chart_lines::tokens::{is, read_number};
use fault_slips::line_slips::is_near;
use hubs::hub_table::{KINDS, Letters, Numbers};

/// What a word is that stands where a hub is wanted.
#[derive(Clone, Copy, Debug, PartialEq, Eq)]
pub enum HubWord {
    /// A hub of the panel, of these letters.
    There(Letters),
    /// A hub as it is written, of these letters; the panel has none with these numbers.
    OutOfRange(Letters),
    /// The letters are those of hubs. The numbers aren't as many, or aren't written as numbers are.
    Misnumbered(Letters),
    /// No hub has the letters. These are a letter away.
    Misspelt(Letters),
    /// No hub has the letters, nor any that are a letter away.
    Unknown,
}

impl HubWord {
    /// Whether it is a hub as it is written, on the panel or not.
    pub fn is_name(self) -> bool
        ensures { result ≡ law.is_name self }
    {
        match self {
            HubWord::There(_) | HubWord::OutOfRange(_) => true,
            HubWord::Misnumbered(_) | HubWord::Misspelt(_) | HubWord::Unknown => false,
        }
    }
}

/// Whether a byte is a point or a digit.
fn is_numeric(byte: u8) -> bool
    ensures { result ≡ law.is_numeric byte }
{
    byte == b'.' || byte.is_ascii_digit()
}

/// How many bytes a word has before its first point or digit.
fn letters_before(word: &[u8]) -> usize
    ensures value { result ≡ prefix_len law.is_lettered word.now }
    ensures within { result ≤ length word.now }
{
    word.iter().take_while(|byte| !is_numeric(**byte)).count()
}

/// How many points and digits a text begins with.
fn numeric_before(text: &[u8]) -> usize
    ensures value { result ≡ prefix_len law.is_numeric text.now }
    ensures within { result ≤ length text.now }
{
    text.iter().take_while(|byte| is_numeric(**byte)).count()
}

/// How many bytes stand before the first point.
fn bytes_before_point(text: &[u8]) -> usize
    ensures value { result ≡ prefix_len law.is_pointless text.now }
    ensures within { result ≤ length text.now }
{
    text.iter().take_while(|byte| **byte != b'.').count()
}

/// The letters of a word: its bytes before the first digit or point.
pub fn letters_in(word: &[u8]) -> &[u8]
    ensures { result.now ≡ law.letters_in word.now }
{
    &word[..letters_before(word)]
}

/// What stands behind the letters of a word.
pub fn tail_of(word: &[u8]) -> &[u8]
    ensures { result.now ≡ law.tail_of word.now }
{
    &word[letters_before(word)..]
}

/// The last of three numbers.
fn from_three(first: u16, second: u16, text: &[u8]) -> Option<Numbers>
    ensures { result ≡ law.from_three first second text.now }
{
    Some(Numbers::Three(first, second, read_number(text)?))
}

/// The numbers from the second on.
fn from_two(first: u16, text: &[u8]) -> Option<Numbers>
    ensures { result ≡ law.from_two first text.now }
{
    let end = bytes_before_point(text);
    let second = read_number(&text[..end])?;
    match &text[end..] {
        [] => Some(Numbers::Two(first, second)),
        [_, rest @ ..] => from_three(first, second, rest),
    }
}

/// Numbers with points between them.
pub(crate) fn from_one(text: &[u8]) -> Option<Numbers>
    ensures { result ≡ law.from_one text.now }
{
    let end = bytes_before_point(text);
    let first = read_number(&text[..end])?;
    match &text[end..] {
        [] => Some(Numbers::One(first)),
        [_, rest @ ..] => from_two(first, rest),
    }
}

/// The numbers behind letters, with or without a point before the first one.
fn numbers_in(tail: &[u8]) -> Option<Numbers>
    ensures { result ≡ law.numbers_in tail.now }
{
    match tail {
        [] => Some(Numbers::Bare),
        [b'.', rest @ ..] => from_one(rest),
        [_, ..] => from_one(tail),
    }
}

/// Whether a point is missing before the first number.
pub fn is_unpointed(tail: &[u8]) -> bool
    ensures { result ≡ law.is_unpointed tail.now }
{
    match tail {
        [] => false,
        [byte, ..] => *byte != b'.',
    }
}

/// Whether the panel has the hub of letters and of the numbers that stand behind them, with or without a point before the first one.
pub fn is_there(letters: Letters, tail: &[u8]) -> bool
    ensures { result ≡ law.is_there letters (law.numbers_in tail.now) }
{
    match numbers_in(tail) {
        Some(numbers) => letters.shape().place(numbers).is_some(),
        None => false,
    }
}

/// What a word of letters that hubs have is by its numbers.
fn numbered(letters: Letters, numbers: Option<Numbers>) -> HubWord
    ensures { result ≡ law.numbered letters numbers }
{
    let Some(numbers) = numbers else {
        return HubWord::Misnumbered(letters);
    };
    if !letters.shape().has_as_many(numbers) {
        HubWord::Misnumbered(letters)
    } else if letters.shape().place(numbers).is_some() {
        HubWord::There(letters)
    } else {
        HubWord::OutOfRange(letters)
    }
}

/// What a word of letters that hubs have is by what stands behind them.
fn lettered(letters: Letters, tail: &[u8]) -> HubWord
    ensures { result ≡ law.lettered letters tail.now }
{
    if is_unpointed(tail) {
        HubWord::Misnumbered(letters)
    } else {
        numbered(letters, numbers_in(tail))
    }
}

/// The first of some letters that are spelled so.
fn first_spelled(kinds: &[Letters], word: &[u8]) -> Option<Letters>
    ensures { result ≡ find (λ letters. bytes_eq (row_of letters).spelled word.now) kinds.now }
{
    kinds
        .iter()
        .copied()
        .find(|letters| is(letters.spelled().as_bytes(), word))
}

/// The letters of hubs that are spelled so.
fn letters_of(spelled: &[u8]) -> Option<Letters>
    ensures { result ≡ letters_spelled spelled.now }
{
    first_spelled(&KINDS, spelled)
}

/// The first of some letters that are a letter away from a word.
fn first_near(kinds: &[Letters], word: &[u8]) -> Option<Letters>
    ensures { result ≡ find (λ letters. is_near (row_of letters).spelled word.now) kinds.now }
{
    kinds
        .iter()
        .copied()
        .find(|letters| is_near(letters.spelled().as_bytes(), word))
}

/// The first letters of the hub table that are a letter away from a word.
fn near_kind(word: &[u8]) -> Option<Letters>
    ensures { result ≡ law.near_kind word.now }
{
    first_near(&KINDS, word)
}

/// Whether letters are a letter away from a word, and the panel has their hub of the numbers that stand behind it.
fn is_meant(letters: Letters, word: &[u8], tail: &[u8]) -> bool
    ensures { result ≡ law.is_meant word.now tail.now letters }
{
    is_near(letters.spelled().as_bytes(), word) && is_there(letters, tail)
}

/// The first of some letters that may be meant.
fn first_meant(kinds: &[Letters], word: &[u8], tail: &[u8]) -> Option<Letters>
    ensures { result ≡ find (law.is_meant word.now tail.now) kinds.now }
{
    kinds
        .iter()
        .copied()
        .find(|letters| is_meant(*letters, word, tail))
}

/// The first letters of the hub table that are a letter away from a word, and whose hub of the numbers behind it the panel has.
fn meant_kind(word: &[u8], tail: &[u8]) -> Option<Letters>
    ensures { result ≡ law.meant_kind word.now tail.now }
{
    first_meant(&KINDS, word, tail)
}

/// The first letters of the hub table that are a letter away from a word of two letters or more: of those whose hub the panel has, or else of all.
#[tactic(auto, unfolding(crate::specs::HubWords::near_letters))]
fn near_letters(word: &[u8], tail: &[u8]) -> Option<Letters>
    ensures { result ≡ law.near_letters word.now tail.now }
{
    if word.len() < 2 {
        return None;
    }
    match meant_kind(word, tail) {
        Some(letters) => Some(letters),
        None => near_kind(word),
    }
}

/// What a word is that stands where a hub is wanted.
#[tactic(auto, unfolding(crate::specs::HubWords::hub_word))]
pub fn hub_word(word: &[u8]) -> HubWord
    ensures { result ≡ law.hub_word word.now }
{
    let spelled = letters_in(word);
    match letters_of(spelled) {
        Some(letters) => lettered(letters, tail_of(word)),
        None => match near_letters(spelled, tail_of(word)) {
            Some(letters) => HubWord::Misspelt(letters),
            None => HubWord::Unknown,
        },
    }
}

/// How many bytes of a word are letters and the digits and points behind them: where a second hub begins, if one stands in the word.
pub fn second_place(word: &[u8]) -> usize
    ensures value { result ≡ law.second_place word.now }
    ensures within { result ≤ length word.now }
{
    let letters = letters_before(word);
    letters + numeric_before(&word[letters..])
}

/// Whether a word is two hubs, one behind the other.
#[tactic(auto, unfolding(crate::specs::HubWords::is_two))]
pub(crate) fn is_two(word: &[u8]) -> bool
    ensures { result ≡ law.is_two word.now }
{
    let place = second_place(word);
    hub_word(&word[..place]).is_name() && hub_word(&word[place..]).is_name()
}
