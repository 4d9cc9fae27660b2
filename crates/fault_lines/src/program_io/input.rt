//! Reading what the program is given.

ghost use Rattle.std.specs.Prelude.{◌≡◌, ◌≢◌, ◌<◌, ◌↔◌, ◌⊎◌, ℕ, length, slice_index, IfOk, IfErr, IfSome, IfNone, IsTrue};
ghost use Rattle.fault_lines.specs.ProgramIo.Input.{IsDivided, HasNoLineFeed, IsEndPiece};

use crate::faults::Fault;
use card_code::without_cr;
use chart_lines::tokens::is_end_line;
use std::alloc::Global;
use std::io::{ErrorKind, Read};

/// All bytes of a reader; `path` names it in the fault of a reader that can't be read. Where memory is wanting that is told.
pub fn read_whole<'a, R: Read + Drop>(
    alloc: Global,
    mut reader: R,
    path: &'a str,
) -> Result<Vec<u8>, Fault<'a>>
    ensures whole { IfOk result (λ bytes. IfSome (R.remaining reader) (λ all. bytes.items ≡ all)) }
    ensures told { IfErr result (λ fault. (fault ≡ Fault.Memory) ⊎ (fault ≡ Fault.File path.entry)) }
{
    let mut bytes = Vec::new(alloc);
    match reader.read_to_end(&mut bytes) {
        Ok(_) => Ok(bytes),
        Err(error) if error.kind() == ErrorKind::OutOfMemory => Err(Fault::Memory),
        Err(_) => Err(Fault::File { path }),
    }
}

/// The chart and the deck of a text that has both: the chart goes through the first line END, and all of it is the chart
/// where there is none. What END is the grammar of charts says: it is the line's only token, and spaces alone divide tokens.
pub fn chart_and_deck(text: &[u8]) -> (&[u8], &[u8])
    ensures { IsDivided text.now result.0.now result.1.now }
{
    let mut taken = 0;
    while let Some(length) = first_line_feed(&text[taken..]) {
        let start = taken;
        taken += length + 1;
        if ends_chart(&text[start..taken - 1]) {
            return text.split_at(taken);
        }
    }
    text.split_at(text.len())
}

// The place of the first LF.
fn first_line_feed(text: &[u8]) -> Option<usize>
    ensures within { IfSome result (λ end. end < length text.now) }
    ensures found { IfSome result (λ end. slice_index text.now end ≡ 10) }
    ensures before { IfSome result (λ end. (k : ℕ) → k < end → slice_index text.now k ≢ 10) }
    ensures none { IfNone result (HasNoLineFeed text.now) }
{
    text.iter().position(|byte| *byte == b'\n')
}

// Whether what stands before an LF is a line END.
fn ends_chart(piece: &[u8]) -> bool
    ensures { IsTrue result ↔ IsEndPiece piece.now }
{
    is_end_line(without_cr(piece))
}
