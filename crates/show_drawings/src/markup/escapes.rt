//! Escaping.

ghost use Rattle.std.specs.Prelude.{◌≡◌, ◌+◌, ◌<◌, ◌++◌, ◌∷◌, [], OnOk};
ghost use Rattle.std.specs.String.{string_bytes};
ghost use Rattle.show_drawings.specs.MarkupWords.Escapes.{escaped, escaped_byte, four_digits, is_plain, numbered_byte};

use std::alloc::AllocError;

// Whether a byte is written as it is: a line feed, or printable and no sign of markup.
fn is_plain(byte: u8) -> bool
    ensures { result ≡ is_plain byte }
{
    byte == 10 || (32 <= byte && byte <= 126) && !matches!(byte, b'&' | b'<' | b'>' | b'"' | b'\'')
}

// Writes a digit.
fn push_digit(text: &mut String, digit: u16) -> Result<(), AllocError>
    requires { digit < 10 }
    ensures { OnOk result (string_bytes text.new ≡ string_bytes text.old ++ (48 + digit) ∷ []) }
{
    text.push(char::from(48 + digit as u8))
}

// Writes a number below 10,000 by its four digits.
fn push_four_digits(text: &mut String, number: u16) -> Result<(), AllocError>
    requires { number < 10000 }
    ensures { OnOk result (string_bytes text.new ≡ string_bytes text.old ++ four_digits number) }
{
    push_digit(text, number / 1000)?;
    push_digit(text, number / 100 % 10)?;
    push_digit(text, number / 10 % 10)?;
    push_digit(text, number % 10)
}

// Writes a byte that is not written as it is by its number. Control characters have none in XHTML, so they are shown by their pictures.
fn push_numbered(text: &mut String, byte: u8) -> Result<(), AllocError>
    ensures { OnOk result (string_bytes text.new ≡ string_bytes text.old ++ numbered_byte byte) }
{
    let number = if byte < 32 {
        9216 + u16::from(byte)
    } else {
        u16::from(byte)
    };
    text.push_str("&#")?;
    push_four_digits(text, number)?;
    text.push_str(";")
}

// Writes a byte.
fn push_escaped_byte(text: &mut String, byte: u8) -> Result<(), AllocError>
    ensures { OnOk result (string_bytes text.new ≡ string_bytes text.old ++ escaped_byte byte) }
{
    match byte {
        b'&' => text.push_str("&amp;"),
        b'<' => text.push_str("&lt;"),
        b'>' => text.push_str("&gt;"),
        b'"' => text.push_str("&quot;"),
        b'\'' => text.push_str("&apos;"),
        _ if is_plain(byte) => text.push(char::from(byte)),
        _ => push_numbered(text, byte),
    }
}

#[tactic(auto, using(crate::proofs::MarkupWords::Pieces::one_more))]
/// Writes bytes into a text of XHTML: the signs of markup by their names, line feeds and all other printable characters as they are,
/// the rest by their numbers, control characters by those of their pictures.
///
/// Fails only where no memory is left; a front of the bytes may then have been written.
pub fn push_escaped(text: &mut String, words: &[u8]) -> Result<(), AllocError>
    ensures { OnOk result (string_bytes text.new ≡ string_bytes text.old ++ escaped words.now) }
{
    for byte in words {
        push_escaped_byte(text, *byte)?;
    }
    Ok(())
}
