//! The words that are told of a line that no form derives.

ghost use Rattle.std.specs.Prelude.{◌≡◌};
ghost use Rattle.fault_slips.specs.LineSlips.Forms as law;

use crate::line_slips::near::is_near;
use crate::line_slips::slip::Slip;
use crate::wording;

/// What is wrong with a line whose bytes tell no slip, by its first word.
#[tactic(auto, unfolding(crate::specs::LineSlips::Forms::first_words))]
fn first_words(word: &[u8]) -> &'static str
    ensures { result.now ≡ law.first_words word.now }
{
    if is_word(word, b"CHART407") {
        wording::ONLY_THE_FIRST_LINE_IS_THE_TITLE
    } else if begins_form(word) {
        wording::NO_LINE_HAS_THESE_WORDS_IN_THIS_ORDER
    } else {
        wording::NO_LINE_BEGINS_WITH_THIS_WORD
    }
}

/// Whether forms begin with a word, in capital or small letters.
fn begins_form(word: &[u8]) -> bool
    ensures { result ≡ law.begins_form word.now }
{
    begins_item(word)
        || is_word(word, b"FIELD")
        || is_word(word, b"CONTROL")
        || is_word(word, b"PRINT")
        || is_word(word, b"FORM")
        || is_word(word, b"TAPE")
        || is_word(word, b"END")
}

/// Whether forms of the lines that print begin with a word, in capital or small letters.
fn begins_item(word: &[u8]) -> bool
    ensures { result ≡ law.begins_item word.now }
{
    is_word(word, b"HEAD")
        || is_word(word, b"DETAIL")
        || is_word(word, b"TOTAL")
        || is_word(word, b"SPACE")
        || is_word(word, b"AFTER")
}

/// What is wrong with a tab, in a chart and in a wiring chart.
pub fn tab_words() -> &'static str
    ensures { result.now ≡ law.tab_words }
{
    wording::THERE_IS_A_TAB
}

/// What helps for a tab, in a chart and in a wiring chart.
pub fn tab_cure() -> &'static str
    ensures { result.now ≡ law.tab_cure }
{
    wording::PUT_A_SPACE_IN_ITS_PLACE
}

/// What is wrong by a slip, with a line whose first word this is.
#[tactic(auto, unfolding(crate::specs::LineSlips::Forms::slip_words))]
pub(crate) fn slip_words(slip: Slip, word: &[u8]) -> &'static str
    ensures { result.now ≡ law.slip_words slip word.now }
{
    match slip {
        Slip::Tab => tab_words(),
        Slip::Comment => wording::NO_COMMENTS,
        Slip::Quotation => wording::NO_QUOTATION_MARKS,
        Slip::Unclosed => wording::AN_APOSTROPHE_IS_NOT_CLOSED,
        Slip::Small => wording::ONLY_CAPITAL_LETTERS,
        Slip::Unprintable => wording::THIS_CHARACTER_CANT_BE_PRINTED,
        Slip::Other => first_words(word),
    }
}

/// Whether a word, in capital or small letters, is one in capital letters.
pub fn is_word(word: &[u8], capitals: &[u8]) -> bool
    ensures { result ≡ law.is_word word.now capitals.now }
{
    word.eq_ignore_ascii_case(capitals)
}

/// The first word of a line that may be meant.
#[tactic(auto, unfolding(crate::specs::LineSlips::Forms::near_word))]
fn near_word(word: &[u8]) -> &'static str
    ensures { result.now ≡ law.near_word word.now }
{
    if is_near(b"FIELD", word) {
        wording::MEANT_FIELD
    } else if is_near(b"CONTROL", word) {
        wording::MEANT_CONTROL
    } else if is_near(b"PRINT", word) {
        wording::MEANT_PRINT
    } else if is_near(b"HEAD", word) {
        wording::MEANT_HEAD
    } else if is_near(b"DETAIL", word) {
        wording::MEANT_DETAIL
    } else if is_near(b"TOTAL", word) {
        wording::MEANT_TOTAL
    } else if is_near(b"SPACE", word) {
        wording::MEANT_SPACE
    } else if is_near(b"AFTER", word) {
        wording::MEANT_AFTER
    } else if is_near(b"FORM", word) {
        wording::MEANT_FORM
    } else if is_near(b"TAPE", word) {
        wording::MEANT_TAPE
    } else if is_near(b"END", word) {
        wording::MEANT_END
    } else {
        wording::A_LINE_BEGINS_WITH
    }
}

/// The form that begins with a word, in capital or small letters, in words; of another word the first words that may be meant.
#[tactic(auto, unfolding(crate::specs::LineSlips::Forms::form_words))]
pub fn form_words(word: &[u8]) -> &'static str
    ensures { result.now ≡ law.form_words word.now }
{
    if is_word(word, b"FIELD") {
        wording::FIELD_TAKES
    } else if is_word(word, b"CONTROL") {
        wording::CONTROL_TAKES
    } else if is_word(word, b"PRINT") {
        wording::PRINT_TAKES
    } else if is_word(word, b"HEAD") {
        wording::HEAD_TAKES
    } else if is_word(word, b"DETAIL") {
        wording::DETAIL_TAKES
    } else if is_word(word, b"TOTAL") {
        wording::TOTAL_TAKES
    } else if is_word(word, b"SPACE") {
        wording::SPACE_TAKES
    } else if is_word(word, b"AFTER") {
        wording::AFTER_TAKES
    } else if is_word(word, b"FORM") {
        wording::FORM_TAKES
    } else if is_word(word, b"TAPE") {
        wording::TAPE_TAKES
    } else if is_word(word, b"END") {
        wording::END_STANDS_ALONE
    } else if is_word(word, b"CHART407") {
        wording::THE_TITLE_STANDS_ALREADY
    } else {
        near_word(word)
    }
}

/// What helps by a slip: the form of the line's first word, but for a tab a space.
#[tactic(auto, unfolding(crate::specs::LineSlips::Forms::cure_words))]
pub(crate) fn cure_words(slip: Slip, word: &[u8]) -> &'static str
    ensures { result.now ≡ law.cure_words slip word.now }
{
    match slip {
        Slip::Tab => tab_cure(),
        _ => form_words(word),
    }
}
