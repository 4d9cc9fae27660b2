//! Where the tokens of a line stand.

ghost use Rattle.std.specs.Prelude.{◌≡◌, ◌≢◌, ◌+◌, ◌<◌, ◌≤◌, length};
ghost use Rattle.std.specs.List.{prefix_len};
ghost use Rattle.chart_lines.specs.TokensWords.Tokens.{is_plain, is_inside};
ghost use Rattle.chart_lines.specs.TokensWords.Dividing.{is_space};
ghost use Rattle.fault_slips.specs.LineMarks.Spans as law;
ghost use Rattle.fault_slips.specs.LineMarks.Spans.{StandsUnderAToken};

/// A part of a line: from a byte, counted from 0, up to the byte behind its last.
#[derive(Clone, Copy, Debug, PartialEq, Eq)]
pub struct Span {
    /// Its first byte.
    pub start: usize,
    /// The byte behind its last.
    pub end: usize,
}

/// How many spaces a line begins with.
fn spaces_before(line: &[u8]) -> usize
    ensures value { result ≡ prefix_len is_space line.now }
    ensures within { result ≤ length line.now }
{
    line.iter().take_while(|byte| **byte == b' ').count()
}

/// How many bytes of a line that begins with a token are that token.
fn token_length(line: &[u8]) -> usize
    ensures value { result ≡ law.token_length line.now }
    ensures within { result ≤ length line.now }
{
    match line {
        [] => 0,
        [b'\'', inside @ ..] => usize::min(bytes_inside(inside) + 2, line.len()),
        _ => plain_bytes(line),
    }
}

/// How many bytes stand before the first apostrophe.
fn bytes_inside(bytes: &[u8]) -> usize
    ensures value { result ≡ prefix_len is_inside bytes.now }
    ensures within { result ≤ length bytes.now }
{
    bytes.iter().take_while(|byte| **byte != b'\'').count()
}

/// How many bytes a line begins with that are no space and no apostrophe.
fn plain_bytes(line: &[u8]) -> usize
    ensures value { result ≡ prefix_len is_plain line.now }
    ensures within { result ≤ length line.now }
{
    line.iter()
        .take_while(|byte| **byte != b' ' && **byte != b'\'')
        .count()
}

/// How many bytes of a line stand before the end of its first token.
fn first_end(line: &[u8]) -> usize
    ensures value { result ≡ law.first_end line.now }
    ensures within { result ≤ length line.now }
{
    let start = spaces_before(line);
    start + token_length(&line[start..])
}

/// How many bytes stand before the token that has so many others before it.
fn token_start(line: &[u8], index: usize) -> usize
    ensures value { result ≡ law.token_start index line.now }
    ensures within { result ≤ length line.now }
{
    let mut passed = 0;
    for _ in 0..index {
        passed += first_end(&line[passed..]);
    }
    passed + spaces_before(&line[passed..])
}

/// The token that begins at a place of a line, as far as the line goes.
fn span_at(line: &[u8], start: usize) -> Span
    requires { start ≤ length line.now }
    ensures value { result ≡ law.span_at line.now start }
    ensures ordered { result.start ≤ result.end }
    ensures within { result.end ≤ length line.now }
{
    Span {
        start,
        end: start + token_length(&line[start..]),
    }
}

/// The span of the token that has `index` others before it, or else of the first one.
fn found_span(line: &[u8], index: usize) -> Span
    ensures value { result ≡ law.span_of index line.now }
    ensures ordered { result.start ≤ result.end }
    ensures within { result.end ≤ length line.now }
    ensures begun { law.token_start index line.now ≤ length line.now }
{
    let start = token_start(line, index);
    if start == line.len() {
        span_at(line, token_start(line, 0))
    } else {
        span_at(line, start)
    }
}

/// Where the token stands that has `index` others before it, or, if the line has no such token, its first one.
pub fn token_span(line: &[u8], index: usize) -> Span
    ensures value { result ≡ law.span_of index line.now }
    ensures ordered { result.start ≤ result.end }
    ensures within { result.end ≤ length line.now }
    ensures token { StandsUnderAToken line.now result }
{
    found_span(line, index)
}

/// The token of a line that has `index` others before it, as far as the line goes; an empty one, if the line has no such token.
pub fn word(line: &[u8], index: usize) -> &[u8]
    ensures { result.now ≡ law.word index line.now }
{
    let span = span_at(line, token_start(line, index));
    &line[span.start..span.end]
}
