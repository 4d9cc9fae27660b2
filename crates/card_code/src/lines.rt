//! The lines of a text.

ghost use Rattle.std.specs.Prelude.{◌≡◌, ◌≢◌, ◌<◌, ℕ, [], ◌∷◌, length, slice_index, IfNone, IfSome, MatchOption};
ghost use Rattle.card_code.specs.Lines.{lines_of, without_cr};

/// The first line of a text without its line end, and the text after it; `None` where no line is
/// left.
///
/// A line ends at LF or at the end of the text, and one CR at its end is dropped. What stands after
/// the last LF is a line only where something of it is left then.
pub fn next_line(text: &[u8]) -> Option<(&[u8], &[u8])>
    ensures none { IfNone result (lines_of text.now ≡ []) }
    ensures first { IfSome result (λ cut. lines_of text.now ≡ cut.0.now ∷ lines_of cut.1.now) }
    ensures shorter { IfSome result (λ cut. length cut.1.now < length text.now) }
{
    match first_line_feed(text) {
        Some(end) => Some((without_cr(&text[..end]), &text[end + 1..])),
        None => last_line(text),
    }
}

/// The place of the first LF.
fn first_line_feed(text: &[u8]) -> Option<usize>
    ensures within { IfSome result (λ end. end < length text.now) }
    ensures found { IfSome result (λ end. slice_index text.now end ≡ 10) }
    ensures before { IfSome result (λ end. (k : ℕ) → k < end → slice_index text.now k ≢ 10) }
    ensures none { IfNone result ((k : ℕ) → k < length text.now → slice_index text.now k ≢ 10) }
{
    text.iter().position(|byte| *byte == b'\n')
}

/// A text without LF as its last line.
fn last_line(text: &[u8]) -> Option<(&[u8], &[u8])>
    requires { (k : ℕ) → k < length text.now → slice_index text.now k ≢ 10 }
    ensures none { IfNone result (lines_of text.now ≡ []) }
    ensures first { IfSome result (λ cut. lines_of text.now ≡ cut.0.now ∷ lines_of cut.1.now) }
    ensures shorter { IfSome result (λ cut. length cut.1.now < length text.now) }
{
    let line = without_cr(text);
    if line.is_empty() {
        None
    } else {
        Some((line, &text[text.len()..]))
    }
}

/// A piece of a text without the one CR at its end.
pub fn without_cr(piece: &[u8]) -> &[u8]
    ensures line { result.now ≡ without_cr piece.now }
{
    match piece.split_last() {
        Some((last, line)) if *last == b'\r' => line,
        _ => piece,
    }
}
