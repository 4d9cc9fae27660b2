//! The words of an explanation, with links to lines of the chart.

ghost use Rattle.std.specs.Prelude.{◌≡◌, ◌≤◌, ◌∷◌, ◌++◌, drop, length, OnOk};
ghost use Rattle.std.specs.Char.{is_ascii_digit};
ghost use Rattle.std.specs.List.{prefix_len};
ghost use Rattle.std.specs.String.{string_bytes};
ghost use Rattle.show_sections.specs.WheelSections.Words.{bracket_close, bracket_open, leading_digits, linked, number_in, sign_text};

use show_drawings::markup::push_escaped;
use std::alloc::AllocError;

// With how many digits words begin.
fn count_digits(words: &[u8]) -> usize
    ensures value { result ≡ prefix_len is_ascii_digit words.now }
    ensures within { result ≤ length words.now }
{
    words
        .iter()
        .take_while(|sign| sign.is_ascii_digit())
        .count()
}

// The digits with which words begin.
fn leading_digits(words: &[u8]) -> &[u8]
    ensures { result.now ≡ leading_digits words.now }
{
    &words[..count_digits(words)]
}

// What stands behind five signs.
fn behind_five(words: &[u8]) -> &[u8]
    ensures { result.now ≡ drop 5 words.now }
{
    if 5 < words.len() { &words[5..] } else { &[] }
}

// The number in `line 6 of the chart`.
fn number_in(words: &[u8]) -> &[u8]
    ensures { result.now ≡ number_in words.now }
{
    leading_digits(behind_five(words))
}

#[tactic(auto, unfolding(crate::specs::WheelSections::Words::bracket_open))]
// A bracket, and the front of a link to the line with this number.
fn write_bracket_open(text: &mut String, number: &[u8]) -> Result<(), AllocError>
    ensures { OnOk result (string_bytes text.new ≡ string_bytes text.old ++ bracket_open number.now) }
{
    text.push_str("(<a href=\"#line")?;
    push_escaped(text, number)?;
    text.push_str("\">")
}

#[tactic(auto, unfolding(crate::specs::WheelSections::Words::bracket_close))]
// The end of a link, and the other bracket.
fn write_bracket_close(text: &mut String) -> Result<(), AllocError>
    ensures { OnOk result (string_bytes text.new ≡ string_bytes text.old ++ bracket_close) }
{
    text.push_str("</a>)")
}

// A sign of words, before these others.
fn write_sign(text: &mut String, sign: u8, behind: &[u8]) -> Result<(), AllocError>
    ensures { OnOk result (string_bytes text.new ≡ string_bytes text.old ++ sign_text sign behind.now) }
{
    match sign {
        b'(' => write_bracket_open(text, number_in(behind)),
        b')' => write_bracket_close(text),
        _ => push_escaped(text, &[sign]),
    }
}

#[tactic(auto, using(crate::proofs::WheelSections::Words::linked_more))]
// Words, with links to the lines of the chart that they name.
pub(crate) fn write_linked(text: &mut String, words: &[u8]) -> Result<(), AllocError>
    ensures { OnOk result (string_bytes text.new ≡ string_bytes text.old ++ linked words.now) }
{
    for at in 0..words.len() {
        write_sign(text, words[at], &words[at + 1..])?;
    }
    Ok(())
}
