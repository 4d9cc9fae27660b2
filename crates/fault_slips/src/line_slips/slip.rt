//! The slips of a line that no form derives.

ghost use Rattle.std.specs.Prelude.{◌≡◌, ◌<◌, ◌≤◌, false, length, position, IfSome, None};
ghost use Rattle.std.specs.Char.{is_ascii_lowercase};
ghost use Rattle.std.specs.List.{list_any};
ghost use Rattle.fault_slips.specs.LineSlips.Slips as law;

use crate::line_marks::{Span, token_span};
use card_code::Column;

/// What is wrong with a line that no form derives, as far as its bytes tell it.
#[derive(Clone, Copy, Debug, PartialEq, Eq)]
pub enum Slip {
    /// It has a tab.
    Tab,
    /// It has a sign with which comments begin elsewhere: `#` or `;` outside of literals, or `*` before a blank at its front.
    Comment,
    /// It has a quotation mark, a backtick, or a byte that is no ASCII.
    Quotation,
    /// It has an apostrophe that none closes.
    Unclosed,
    /// It has a small letter.
    Small,
    /// It has another character that no line can print.
    Unprintable,
    /// None of these.
    Other,
}

/// Whether a byte is a sign with which comments begin elsewhere, wherever it stands.
fn is_comment(byte: u8) -> bool
    ensures { result ≡ law.is_comment byte }
{
    byte == b'#' || byte == b';'
}

/// Whether a line begins with an asterisk and a blank, as comments do elsewhere.
fn is_starred(line: &[u8]) -> bool
    ensures { result ≡ law.is_starred line.now }
{
    match line {
        [star, blank, ..] => *star == b'*' && *blank == b' ',
        _ => false,
    }
}

/// Whether a byte is a quotation mark, a backtick or no ASCII.
fn is_quotation(byte: u8) -> bool
    ensures { result ≡ law.is_quotation byte }
{
    byte == b'"' || byte == b'`' || byte >= 128
}

/// Whether a byte is neither printed nor an apostrophe.
fn is_unprintable(byte: u8) -> bool
    ensures { result ≡ law.is_unprintable byte }
{
    let is_printable = Column::of_char(char::from(byte)).is_some() && byte != b'!';
    !is_printable && byte != b'\''
}

/// Where the apostrophe stands that none closes, if there is one.
#[tactic(auto, unfolding(crate::specs::LineSlips::Slips::unclosed_from))]
fn unclosed_place(line: &[u8]) -> Option<usize>
    ensures value { result ≡ law.unclosed_from None 0 line.now }
    ensures within { IfSome result (λ place. place < length line.now) }
{
    let mut open = None;
    for (place, byte) in line.iter().enumerate() {
        if *byte == b'\'' {
            open = if open.is_some() { None } else { Some(place) };
        }
    }
    open
}

/// Where the first `#` or `;` stands outside of literals.
#[tactic(auto, unfolding(crate::specs::LineSlips::Slips::comment_from))]
fn comment_sign(line: &[u8]) -> Option<usize>
    ensures value { result ≡ law.comment_from false 0 line.now }
    ensures within { IfSome result (λ place. place < length line.now) }
{
    let mut is_open = false;
    for (place, byte) in line.iter().enumerate() {
        if !is_open && is_comment(*byte) {
            return Some(place);
        }
        is_open ^= *byte == b'\'';
    }
    None
}

/// Where the sign of a comment stands: the asterisk of a line that begins with one and a blank, or else the first `#` or `;` outside of literals.
#[tactic(auto, unfolding(crate::specs::LineSlips::Slips::comment_place))]
fn comment_place(line: &[u8]) -> Option<usize>
    ensures value { result ≡ law.comment_place line.now }
    ensures within { IfSome result (λ place. place < length line.now) }
{
    if is_starred(line) {
        Some(0)
    } else {
        comment_sign(line)
    }
}

/// Whether a line has a tab.
fn has_tab(line: &[u8]) -> bool
    ensures { result ≡ list_any law.is_tab line.now }
{
    line.iter().any(|byte| *byte == b'\t')
}

/// Whether a line has a quotation mark, a backtick or a byte that is no ASCII.
fn has_quotation(line: &[u8]) -> bool
    ensures { result ≡ list_any law.is_quotation line.now }
{
    line.iter().any(|byte| is_quotation(*byte))
}

/// Whether a line has a small letter.
fn has_small(line: &[u8]) -> bool
    ensures { result ≡ list_any is_ascii_lowercase line.now }
{
    line.iter().any(|byte| byte.is_ascii_lowercase())
}

/// Whether a line has a byte that is neither printed nor an apostrophe.
fn has_unprintable(line: &[u8]) -> bool
    ensures { result ≡ list_any law.is_unprintable line.now }
{
    line.iter().any(|byte| is_unprintable(*byte))
}

/// The slip of a line: the first of `Tab`, `Comment`, `Quotation`, `Unclosed`, `Small` and `Unprintable` that it has.
#[tactic(auto, unfolding(crate::specs::LineSlips::Slips::slip_of))]
pub fn slip_of(line: &[u8]) -> Slip
    ensures { result ≡ law.slip_of line.now }
{
    if has_tab(line) {
        Slip::Tab
    } else if comment_place(line).is_some() {
        Slip::Comment
    } else if has_quotation(line) {
        Slip::Quotation
    } else if unclosed_place(line).is_some() {
        Slip::Unclosed
    } else if has_small(line) {
        Slip::Small
    } else if has_unprintable(line) {
        Slip::Unprintable
    } else {
        Slip::Other
    }
}

/// Where the first tab stands.
fn tab_place(line: &[u8]) -> Option<usize>
    ensures value { result ≡ position law.is_tab line.now }
    ensures within { IfSome result (λ place. place < length line.now) }
{
    line.iter().position(|byte| *byte == b'\t')
}

/// Where the first quotation mark or backtick stands, or the first byte that is no ASCII.
fn quotation_place(line: &[u8]) -> Option<usize>
    ensures value { result ≡ position law.is_quotation line.now }
    ensures within { IfSome result (λ place. place < length line.now) }
{
    line.iter().position(|byte| is_quotation(*byte))
}

/// Where the first small letter stands.
fn small_place(line: &[u8]) -> Option<usize>
    ensures value { result ≡ position is_ascii_lowercase line.now }
    ensures within { IfSome result (λ place. place < length line.now) }
{
    line.iter().position(|byte| byte.is_ascii_lowercase())
}

/// Where the first byte stands that is neither printed nor an apostrophe.
fn unprintable_place(line: &[u8]) -> Option<usize>
    ensures value { result ≡ position law.is_unprintable line.now }
    ensures within { IfSome result (λ place. place < length line.now) }
{
    line.iter().position(|byte| is_unprintable(*byte))
}

/// Where the first byte stands by which a slip is known.
#[tactic(auto, unfolding(crate::specs::LineSlips::Slips::sign_place))]
fn sign_place(line: &[u8], slip: Slip) -> Option<usize>
    ensures value { result ≡ law.sign_place slip line.now }
    ensures within { IfSome result (λ place. place < length line.now) }
{
    match slip {
        Slip::Tab => tab_place(line),
        Slip::Comment => comment_place(line),
        Slip::Quotation => quotation_place(line),
        Slip::Unclosed => unclosed_place(line),
        Slip::Small => small_place(line),
        Slip::Unprintable => unprintable_place(line),
        Slip::Other => None,
    }
}

/// What is marked: the first byte by which the slip is known, or else the first word.
pub fn slip_span(line: &[u8]) -> Span
    ensures value { result ≡ law.slip_span line.now }
    ensures ordered { result.start ≤ result.end }
    ensures within { result.end ≤ length line.now }
{
    match sign_place(line, slip_of(line)) {
        Some(place) => Span {
            start: place,
            end: place + 1,
        },
        None => token_span(line, 0),
    }
}
