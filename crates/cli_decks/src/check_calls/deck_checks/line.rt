//! The lines of a deck, however long they are.

ghost use Rattle.std.specs.Prelude.{◌≡◌, ◌==◌, IfNone, IfOk, IfSome, [], option_to_list, true, false};
ghost use Rattle.std.specs.Io.KnownBytes.{Consumes, IsAtEnd};
ghost use Rattle.card_code.specs.Lines.{lines_of};
ghost use Rattle.cli_decks.specs.CheckCalls.DeckChecks.HelperLines.{ReadsLine};

use arrayvec::ArrayVec;
use card_code::without_cr;
use std::io;
use std::io::{ErrorKind, Read};

/// How many bytes of a line are kept: 80 characters, CR, and one more. A line that has more is no card.
pub(crate) const MOST_KEPT: usize = 82;

// The next byte, or none at the end.
fn next_byte<R: Read>(reader: &mut R) -> io::Result<Option<u8>>
    ensures bytes { IfOk result (λ found. Consumes (R.remaining reader.old) (R.remaining reader.new) (option_to_list found)) }
    ensures end { IfOk result (λ found. IfNone found (IsAtEnd (R.remaining reader.new))) }
{
    let mut byte = [0];
    if reader.read(&mut byte)? == 0 {
        return Ok(None);
    }
    Ok(Some(byte[0]))
}

// Reads the next line, in the place of another, and tells whether there is one. Of a line that is too long only the front is kept.
pub(crate) fn next_line<R: Read>(
    reader: &mut R,
    kept: &mut ArrayVec<u8, MOST_KEPT>,
) -> io::Result<bool>
    ensures line { IfOk result (λ there. there ≡ true
        → ReadsLine (R.remaining reader.old) (R.remaining reader.new) kept.new.items) }
    ensures none { IfOk result (λ there. there ≡ false → IfSome (R.remaining reader.old) (λ text. lines_of text ≡ [])) }
{
    kept.clear();
    for _ in 0..u64::MAX {
        match next_byte(reader)? {
            Some(b'\n') => return Ok(true),
            Some(byte) => {
                // What there is no room for is passed over.
                let _ = kept.try_push(byte);
            }
            None => return Ok(!without_cr(kept.as_slice()).is_empty()),
        }
    }
    // No reader gives as many bytes.
    Err(ErrorKind::Other.into())
}
