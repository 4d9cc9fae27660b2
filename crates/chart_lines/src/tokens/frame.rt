//! The frame that text formats share.

ghost use Rattle.std.specs.Prelude.{◌≡◌, ◌↔◌, ℕ, List, [], ◌∷◌, IsTrue, IfSome, IfNone};
ghost use Rattle.card_code.specs.Lines.{lines_of};
ghost use Rattle.chart_lines.specs.TokensWords.Frame.{IsLarger, IsEmptyLine, IsEndLine, IsTitleLine};
ghost use Rattle.chart_lines.specs.TokensWords.FrameReading.{is_larger, is_title_line};
ghost use Rattle.chart_lines.specs.TokensWords.Tokens.{HasTokens};

use crate::tokens::line::{first_token, without_spaces};
use crate::tokens::word::is;
use card_code::next_line;

/// What a line after the first ones is, in a format whose lines say `S`.
#[derive(Debug, Drop)]
pub enum Content<S> {
    /// A line without a token.
    Empty,
    /// END alone.
    End,
    /// A line of the format, and what it says.
    Says(S),
    /// Nothing that the format has.
    NoLine,
}

/// Whether a text has more lines than a format has at most, or a line of more bytes than there are at most in one.
pub fn is_larger(text: &[u8], most_lines: usize, most_bytes: usize) -> bool
    ensures value { result ≡ is_larger most_lines most_bytes (lines_of text.now) }
    ensures larger { IsTrue result ↔ IsLarger most_lines most_bytes (lines_of text.now) }
{
    let mut lines = 0;
    let mut rest = text;
    while let Some((line, after)) = next_line(rest) {
        if lines == most_lines || line.len() > most_bytes {
            return true;
        }
        lines += 1;
        rest = after;
    }
    false
}

/// Whether a line is a format's name and its version alone. Spaces may stand before, between and after them.
pub fn is_title_line(line: &[u8], name: &[u8], version: &[u8]) -> bool
    ensures value { result ≡ is_title_line name.now version.now line.now }
    ensures title { IsTrue result ↔ IsTitleLine name.now version.now line.now }
{
    match after_word(line, name) {
        Some(after) => is_lone_word(after, version),
        None => false,
    }
}

/// Whether a line is END: whether END is its only token. Spaces may stand before and after it, and nothing else may.
pub fn is_end_line(line: &[u8]) -> bool
    ensures { IsTrue result ↔ IsEndLine line.now }
{
    is_lone_word(line, b"END")
}

/// Whether a word is the only token of a line.
fn is_lone_word(line: &[u8], word: &[u8]) -> bool
    ensures { IsTrue result ↔ HasTokens line.now (word.now ∷ []) }
{
    match after_word(line, word) {
        Some(after) => is_empty_line(after),
        None => false,
    }
}

/// Whether a line has no token.
fn is_empty_line(line: &[u8]) -> bool
    ensures { IsTrue result ↔ IsEmptyLine line.now }
{
    without_spaces(line).is_empty()
}

/// What stands after a word, or `None` where the word isn't the first token of the line.
fn after_word<'a>(line: &'a [u8], word: &[u8]) -> Option<&'a [u8]>
    ensures first { IfSome result (λ after. (tokens : List (List ℕ))
        → HasTokens line.now (word.now ∷ tokens) ↔ HasTokens after.now tokens) }
    ensures other { IfNone result ((tokens : List (List ℕ)) → ¬ HasTokens line.now (word.now ∷ tokens)) }
{
    let rest = without_spaces(line);
    if rest.is_empty() {
        return None;
    }
    let Some((token, after)) = first_token(rest) else {
        return None;
    };
    if is(token, word) { Some(after) } else { None }
}
