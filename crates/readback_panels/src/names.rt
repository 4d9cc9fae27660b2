//! The names of the fields of a draft.
//!
//! A panel knows no names, but its headings may tell some. The heading line right above the columns is the last one on which a literal
//! stands. If one word of it stands above the wheels of a field, and above those of no other field of that printed line, the word is the
//! field's name, as far as it is one of the language. Two fields with the same word above them are called by their columns, as all others
//! are.

ghost use Rattle.std.specs.Prelude.{◌≡◌};
ghost use Rattle.std.specs.List.{list_all};
ghost use Rattle.chart_lines.specs.ChartsWords.Name.{begins_with_letter, is_letter_or_digit};
ghost use Rattle.readback_panels.specs.Names.{is_by_columns, is_name};

use crate::draft::{Draft, DraftField, Item, PRINTED_LINES, PrintedLine, Said};
use chart_lines::charts::HeadingLine;
use chart_numerals::push_numbered;
use std::alloc::{AllocError, Global};

// A word of a heading line, and its wheels.
#[derive(Drop)]
struct Word {
    first: u8,
    last: u8,
    characters: String,
}

impl Word {
    // Whether it stands above one of the wheels of an item.
    fn is_above(&self, item: &Item) -> bool {
        self.first <= item.last && item.first <= self.last
    }

    // Whether it stands above an item of a printed line that shows another field than this one.
    fn is_above_other(&self, item: &Item, line: PrintedLine, field: usize) -> bool {
        match item.said.field() {
            Some(other) => other != field && item.line == line && self.is_above(item),
            None => false,
        }
    }
}

// Whether a byte is a capital letter or a digit.
fn is_letter_or_digit(byte: u8) -> bool
    ensures { result ≡ is_letter_or_digit byte }
{
    byte.is_ascii_uppercase() || byte.is_ascii_digit()
}

// Whether all bytes are capital letters or digits.
fn are_letters_or_digits(bytes: &[u8]) -> bool
    ensures { result ≡ list_all is_letter_or_digit bytes.now }
{
    bytes.iter().all(|byte| is_letter_or_digit(*byte))
}

// Whether bytes are letters and digits, a letter first.
fn begins_with_letter(word: &[u8]) -> bool
    ensures { result ≡ begins_with_letter word.now }
{
    match word {
        [first, others @ ..] => first.is_ascii_uppercase() && are_letters_or_digits(others),
        [] => false,
    }
}

// Whether bytes are a name of the language.
fn is_name(word: &[u8]) -> bool
    ensures { result ≡ is_name word.now }
{
    word.len() <= 8 && begins_with_letter(word)
}

// Whether bytes begin as a name by columns does.
fn is_by_columns(word: &[u8]) -> bool
    ensures { result ≡ is_by_columns word.now }
{
    match word {
        [letter, digit, ..] => {
            (*letter == b'A' || *letter == b'C' || *letter == b'F') && digit.is_ascii_digit()
        }
        _ => false,
    }
}

// Adds the words of a literal that begins on a wheel.
fn push_words(
    alloc: Global,
    words: &mut Vec<Word>,
    literal: &str,
    wheel: u8,
) -> Result<(), AllocError> {
    let mut first = wheel;
    for part in literal.split(' ') {
        let behind = first.saturating_add(u8::try_from(part.len()).unwrap_or(u8::MAX));
        if part != "" {
            words.push(Word {
                first,
                last: behind.saturating_sub(1),
                characters: String::from_str(alloc, part)?,
            })?;
        }
        first = behind.saturating_add(1);
    }
    Ok(())
}

// The words of a heading line.
fn words_on(alloc: Global, draft: &Draft, heading: HeadingLine) -> Result<Vec<Word>, AllocError> {
    let mut words = Vec::new(alloc);
    for item in &draft.items {
        if item.line == PrintedLine::Heading(heading) {
            if let Said::Literal { characters } = &item.said {
                push_words(alloc, &mut words, characters.as_str(), item.first)?;
            }
        }
    }
    Ok(words)
}

// The words of the last heading line on which some stand.
fn heading_words(alloc: Global, draft: &Draft) -> Result<Vec<Word>, AllocError> {
    for heading in [HeadingLine::Third, HeadingLine::Second] {
        let words = words_on(alloc, draft, heading)?;
        if !words.is_empty() {
            return Ok(words);
        }
    }
    words_on(alloc, draft, HeadingLine::First)
}

// The first item that shows a field, by the order of the printed lines.
fn shown_item(draft: &Draft, field: usize) -> Option<&Item> {
    for line in PRINTED_LINES {
        for item in &draft.items {
            if item.line == line && item.said.field() == Some(field) {
                return Some(item);
            }
        }
    }
    None
}

// The place of the one word above an item; none if several stand there.
fn word_above(words: &[Word], item: &Item) -> Option<usize> {
    let mut found = None;
    for (place, word) in words.iter().enumerate() {
        if word.is_above(item) {
            if found.is_some() {
                return None;
            }
            found = Some(place);
        }
    }
    found
}

// The place of the word that may be the name of a field, if there is one.
fn word_of(draft: &Draft, words: &[Word], field: usize) -> Option<usize> {
    let item = shown_item(draft, field)?;
    let place = word_above(words, item)?;
    let word = words.get(place)?;
    let bytes = word.characters.as_bytes();
    let is_shared = draft
        .items
        .iter()
        .any(|other| word.is_above_other(other, item.line, field));
    if is_name(bytes) && !is_by_columns(bytes) && !is_shared {
        Some(place)
    } else {
        None
    }
}

// The words of a heading line, and for each field the place of the word that may be its name.
#[derive(Drop)]
struct Headings {
    words: Vec<Word>,
    above: Vec<Option<usize>>,
}

impl Headings {
    // Those of a draft.
    fn of(alloc: Global, draft: &Draft) -> Result<Headings, AllocError> {
        let words = heading_words(alloc, draft)?;
        let mut above = Vec::new(alloc);
        for field in 0..draft.fields.len() {
            above.push(word_of(draft, words.as_slice(), field))?;
        }
        Ok(Headings { words, above })
    }

    // The word that may be the name of a field.
    fn word(&self, field: usize) -> Option<&str> {
        let place = (*self.above.get(field)?)?;
        Some(self.words.get(place)?.characters.as_str())
    }

    // The name of a field: its word, if no other field has the same.
    fn name(&self, field: usize) -> Option<&str> {
        let word = self.word(field)?;
        for other in 0..self.above.len() {
            if other != field && self.word(other) == Some(word) {
                return None;
            }
        }
        Some(word)
    }
}

// Whether two fields have the same columns and hold the same, texts or amounts.
fn are_twins(one: DraftField, other: DraftField) -> bool {
    one.first == other.first
        && one.last == other.last
        && one.kind.is_amount() == other.kind.is_amount()
}

// Whether a field stands before another in the order of a chart: by columns, texts before amounts.
fn is_before(one: DraftField, other: DraftField) -> bool {
    one.first < other.first
        || (one.first == other.first && one.last < other.last)
        || (one.first == other.first
            && one.last == other.last
            && !one.kind.is_amount()
            && other.kind.is_amount())
}

// Whether a field has a twin before it in a list.
fn is_second(fields: &[DraftField], place: usize, field: DraftField) -> bool {
    for (at, other) in fields.iter().enumerate() {
        if at < place && are_twins(*other, field) {
            return true;
        }
    }
    false
}

// The number of a field among those that have a twin before them, in the order of a chart.
fn second_number(fields: &[DraftField], place: usize, field: DraftField) -> u16 {
    let mut number: u16 = 1;
    for (at, other) in fields.iter().enumerate() {
        let is_earlier = is_before(*other, field) || (at < place && are_twins(*other, field));
        if is_earlier && is_second(fields, at, *other) {
            number = number.saturating_add(1);
        }
    }
    number
}

// Writes the name of a field by its columns: `C3`, `C3TO7` for a text, `A12TO17` for an amount; `F1`, `F2` and so on where a twin has that
// name.
fn write_by_columns(
    name: &mut String,
    fields: &[DraftField],
    place: usize,
) -> Result<(), AllocError> {
    let Some(field) = fields.get(place) else {
        return Ok(());
    };
    if is_second(fields, place, *field) {
        return push_numbered(name, "F", second_number(fields, place, *field));
    }
    let letter = if field.kind.is_amount() { "A" } else { "C" };
    push_numbered(name, letter, field.first)?;
    if field.first < field.last {
        push_numbered(name, "TO", field.last)?;
    }
    Ok(())
}

/// The names of the fields of a draft, in the order of the fields. Its only refusal is memory.
pub(crate) fn names_of(alloc: Global, draft: &Draft) -> Result<Vec<String>, AllocError> {
    let headings = Headings::of(alloc, draft)?;
    let mut names = Vec::new(alloc);
    for field in 0..draft.fields.len() {
        let mut name = String::new(alloc);
        match headings.name(field) {
            Some(word) => name.push_str(word)?,
            None => write_by_columns(&mut name, draft.fields.as_slice(), field)?,
        }
        names.push(name)?;
    }
    Ok(names)
}
