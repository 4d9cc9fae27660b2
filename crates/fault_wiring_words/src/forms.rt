//! The forms of a wiring chart's lines, by their first words.

ghost use Rattle.std.specs.Prelude.{◌≡◌};
ghost use Rattle.fault_wiring_words.specs.Forms as law;

use crate::wording;
use chart_lines::tokens::is;
use fault_slips::line_slips::{is_near, is_word};

/// The form of a word, in capital or small letters.
#[tactic(auto, unfolding(crate::specs::Forms::form_words))]
pub(crate) fn form_words(word: &[u8]) -> &'static str
    ensures { result.now ≡ law.form_words word.now }
{
    if is_word(word, b"WIRE") {
        wording::WIRE_TAKES
    } else if is_word(word, b"STOP") {
        wording::STOP_TAKES
    } else if is_word(word, b"JACK") {
        wording::JACK_TAKES
    } else if is_word(word, b"RING") {
        wording::RING_TAKES
    } else if is_word(word, b"COUPLE") {
        wording::COUPLE_TAKES
    } else if is_word(word, b"FORM") {
        wording::FORM_TAKES
    } else if is_word(word, b"END") {
        wording::END_STANDS_ALONE
    } else {
        wording::A_LINE_BEGINS_WITH
    }
}

/// The first word of a line that may be meant.
#[tactic(auto, unfolding(crate::specs::Forms::near_word))]
pub(crate) fn near_word(word: &[u8]) -> &'static str
    ensures { result.now ≡ law.near_word word.now }
{
    if is_near(b"WIRE", word) {
        wording::MEANT_WIRE
    } else if is_near(b"STOP", word) {
        wording::MEANT_STOP
    } else if is_near(b"JACK", word) {
        wording::MEANT_JACK
    } else if is_near(b"RING", word) {
        wording::MEANT_RING
    } else if is_near(b"COUPLE", word) {
        wording::MEANT_COUPLE
    } else if is_near(b"END", word) {
        wording::MEANT_END
    } else {
        form_words(word)
    }
}

/// The name of jacks that may be meant.
#[tactic(auto, unfolding(crate::specs::Forms::near_jack))]
pub(crate) fn near_jack(name: &[u8]) -> &'static str
    ensures { result.now ≡ law.near_jack name.now }
{
    if is_near(b"LIST", name) {
        wording::MEANT_LIST
    } else if is_near(b"TOTAL", name) {
        wording::MEANT_TOTAL
    } else if is_near(b"HEAD", name) {
        wording::MEANT_HEAD
    } else if is_near(b"LINK", name) {
        wording::MEANT_LINK
    } else if is_near(b"SUPPRESS", name) {
        wording::MEANT_SUPPRESS
    } else if is_near(b"SYMBOL", name) {
        wording::MEANT_SYMBOL
    } else {
        wording::THE_JACKS_ARE
    }
}

/// The number that a jack takes.
#[tactic(auto, unfolding(crate::specs::Forms::jack_words))]
pub(crate) fn jack_words(name: &[u8]) -> &'static str
    ensures { result.now ≡ law.jack_words name.now }
{
    if is(name, b"TOTAL") {
        wording::JACK_TOTAL_TAKES
    } else if is(name, b"HEAD") {
        wording::JACK_HEAD_TAKES
    } else {
        wording::WHEEL_JACKS_TAKE
    }
}
