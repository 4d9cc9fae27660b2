//! Dividing a line into its tokens.

ghost use Rattle.std.specs.Prelude.{◌≡◌, ◌≢◌, ◌+◌, ◌<◌, ◌≤◌, ℕ, List, ◌==◌, length, slice_index, option_map, IfOk, IfSome, IfNone};
ghost use Rattle.std.specs.List.{prefix_len};
ghost use Rattle.chart_lines.specs.TokensWords.Tokens.{HasTokens, is_plain, is_inside};
ghost use Rattle.chart_lines.specs.TokensWords.Texts.{texts};
ghost use Rattle.chart_lines.specs.TokensWords.Dividing.{tokens_of, first_then, is_space, is_apart};

use std::alloc::{AllocError, Global};

/// The tokens of a line, in order, or `None` where it isn't made of tokens: where an apostrophe stands in
/// a plain token or has no second one, or something but a space stands after a literal.
///
/// A line of spaces alone has no token, and any byte but a space can stand in one: a tab or a CR divides
/// nothing. A literal keeps its apostrophes.
///
/// # Errors
///
/// `AllocError` only where memory was refused; the tokens so far are freed then.
pub fn split_line<'a>(alloc: Global, line: &'a [u8]) -> Result<Option<Vec<&'a [u8]>>, AllocError>
    ensures value { IfOk result (λ tokens. option_map (λ v. texts v.items) tokens ≡ tokens_of line.now) }
    ensures divided { IfOk result (λ tokens. IfSome tokens (λ v. HasTokens line.now (texts v.items))) }
    ensures not_divided { IfOk result (λ tokens. IfNone tokens ((others : List (List ℕ)) → ¬ HasTokens line.now others)) }
{
    let mut tokens = Vec::new(alloc);
    let mut rest = without_spaces(line);
    while !rest.is_empty() {
        let Some((token, after)) = first_token(rest) else {
            return Ok(None);
        };
        tokens.push(token)?;
        rest = without_spaces(after);
    }
    Ok(Some(tokens))
}

/// A line without the spaces that it begins with.
pub(crate) fn without_spaces(line: &[u8]) -> &[u8]
    ensures tokens { tokens_of result.now ≡ tokens_of line.now }
    ensures shorter { length result.now ≤ length line.now }
    ensures first { 0 < length result.now → slice_index result.now 0 ≢ 32 }
{
    let (_, rest) = line.split_at(spaces_before(line));
    rest
}

/// How many spaces a line begins with.
fn spaces_before(line: &[u8]) -> usize
    ensures value { result ≡ prefix_len is_space line.now }
    ensures within { result ≤ length line.now }
{
    line.iter().take_while(|byte| **byte == b' ').count()
}

/// The token that a line begins with and what stands after it, or `None` where it begins with none.
pub(crate) fn first_token(line: &[u8]) -> Option<(&[u8], &[u8])>
    requires some { 0 < length line.now }
    requires no_space { slice_index line.now 0 ≢ 32 }
    ensures shorter { IfSome result (λ cut. length cut.1.now < length line.now) }
    ensures tokens { tokens_of line.now ≡ first_then result }
{
    if line[0] == b'\'' {
        first_literal(line)
    } else {
        first_plain(line)
    }
}

/// The plain token that a line begins with and what stands after it.
fn first_plain(line: &[u8]) -> Option<(&[u8], &[u8])>
    requires some { 0 < length line.now }
    requires no_space { slice_index line.now 0 ≢ 32 }
    requires no_apostrophe { slice_index line.now 0 ≢ 39 }
    ensures shorter { IfSome result (λ cut. length cut.1.now < length line.now) }
    ensures tokens { tokens_of line.now ≡ first_then result }
{
    let (token, after) = line.split_at(plain_bytes_before(line));
    if is_apart(after) {
        Some((token, after))
    } else {
        None
    }
}

/// How many bytes of a plain token a line begins with.
fn plain_bytes_before(line: &[u8]) -> usize
    ensures value { result ≡ prefix_len is_plain line.now }
    ensures within { result ≤ length line.now }
{
    line.iter()
        .take_while(|byte| **byte != b' ' && **byte != b'\'')
        .count()
}

/// The literal that a line begins with and what stands after it, where the first apostrophe is there.
fn first_literal(line: &[u8]) -> Option<(&[u8], &[u8])>
    requires some { 0 < length line.now }
    requires apostrophe { slice_index line.now 0 ≡ 39 }
    ensures shorter { IfSome result (λ cut. length cut.1.now < length line.now) }
    ensures tokens { tokens_of line.now ≡ first_then result }
{
    let length = bytes_inside(&line[1..]) + 2;
    if length > line.len() {
        return None;
    }
    let (token, after) = line.split_at(length);
    if is_apart(after) {
        Some((token, after))
    } else {
        None
    }
}

/// How many bytes stand before the first apostrophe.
fn bytes_inside(bytes: &[u8]) -> usize
    ensures value { result ≡ prefix_len is_inside bytes.now }
    ensures within { result ≤ length bytes.now }
{
    bytes.iter().take_while(|byte| **byte != b'\'').count()
}

/// Whether nothing or a space stands after a token.
fn is_apart(after: &[u8]) -> bool
    ensures { result ≡ is_apart after.now }
{
    match after {
        [] => true,
        [first, ..] => *first == b' ',
    }
}
