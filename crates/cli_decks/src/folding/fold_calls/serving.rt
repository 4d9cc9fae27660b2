//! The command that folds a text, over any writers.

ghost use Rattle.std.specs.Prelude.{◌≡◌, ◌≤◌, ◌⊎◌, IsSome, MatchResult, false, true};
ghost use Rattle.std.specs.Io.KnownBytes.{Appends};
ghost use Rattle.card_code.specs.CardCode.{rows_of};
ghost use Rattle.card_code.specs.Deck.{HasDeckFault};
ghost use Rattle.card_code.specs.Lines.{lines_of};
ghost use Rattle.cli_decks.specs.FoldingWords.FoldCalls.FoldEnds.{IsRefused, WritesDeck, WritesFolded, is_too_long};
ghost use Rattle.cli_decks.specs.FoldingWords.Folded.{folded_text};
ghost use Rattle.cli_decks.specs.FoldingWords.ToldChanges.{changes_text};
ghost use Rattle.fault_lines.specs.ProgramIo.Fronts.{AppendsFront, WritesFront};

use crate::folding::fold_calls::long_cards::write_long_cards;
use crate::folding::{Changes, Folded, fold, write_changes};
use card_code::{DeckFault, check_deck};
use fault_lines::faults::{Ending, Fault, tell, unprinted};
use fault_lines::program_io::put;
use std::alloc::Global;
use std::io;
use std::io::Write;

// How the command ends that has told what it had to, or could not. It has nowhere else to tell that it couldn't.
fn ends(status: u8, told: io::Result<()>) -> Ending
    ensures { MatchResult told (λ _. (result.status ≡ status) × (result.is_told ≡ true))
        (λ _. ((result.status ≡ 4) ⊎ (result.status ≡ 5)) × (result.is_told ≡ false)) }
{
    match told {
        Ok(()) => Ending {
            status,
            is_told: true,
        },
        Err(error) => Ending {
            status: unprinted(&error).status(),
            is_told: false,
        },
    }
}

// Whether the fault of a deck is a line that is too long.
fn is_too_long(fault: DeckFault) -> bool
    ensures { result ≡ is_too_long fault }
{
    matches!(fault, DeckFault::CardTooLong { .. })
}

// Writes the deck, and tells what was changed.
fn write_folded<W: Write, V: Write>(
    deck: &[u8],
    changes: &Changes,
    out: &mut W,
    faults: &mut V,
) -> Ending
    ensures written { result.status ≡ 0 → Appends (W.contents out.old) (W.contents out.new) deck.now
        × Appends (V.contents faults.old) (V.contents faults.new) (changes_text changes.now) }
    ensures front { AppendsFront (W.contents out.old) (W.contents out.new) deck.now }
    ensures statuses { (result.status ≡ 0) ⊎ (result.status ≡ 4) ⊎ (result.status ≡ 5) }
{
    match put(out, deck) {
        Ok(()) => ends(0, write_changes(faults, changes)),
        Err(fault) => tell(&fault, faults),
    }
}

// Tells why a folded text is no deck: each line that is too long, or its other fault.
fn refuse<V: Write>(deck: &[u8], fault: DeckFault, faults: &mut V) -> Ending
    requires { HasDeckFault deck.now fault }
    ensures refused { result.status ≡ 3 → IsRefused deck.now result.is_told (V.contents faults.old) (V.contents faults.new) }
    ensures statuses { 3 ≤ result.status × result.status ≤ 5 }
{
    if is_too_long(fault) {
        ends(3, write_long_cards(deck, faults))
    } else {
        tell(&fault.into(), faults)
    }
}

/// Folds a text into a deck and writes it. `fill` is what becomes of a byte that no card has, if it is no small letter and no tab.
///
/// What was changed is told on `faults`, a line for each kind of change. The statuses are 0 done, 3 refused, 4 if one of both can't be
/// written, 5 memory. A text is refused if a line of it has more than 80 columns once it is folded: each such line is told as fault 1 of
/// its card; and if it has more than 999,999 lines. Then no byte is written. Where the output can't be written or memory runs out, the front of
/// the deck may have been.
pub fn fold_to_end<W: Write, V: Write>(
    alloc: Global,
    text: &[u8],
    fill: u8,
    out: &mut W,
    faults: &mut V,
) -> Ending
    requires { IsSome (rows_of fill) }
    ensures done { result.status ≡ 0 → WritesDeck text.now fill (W.contents out.old) (W.contents out.new)
        (V.contents faults.old) (V.contents faults.new) }
    ensures refused { result.status ≡ 3 → (out.new ≡ out.old)
        × IsRefused (folded_text fill (lines_of text.now)) result.is_told (V.contents faults.old) (V.contents faults.new) }
    ensures front { (out.new ≡ out.old)
        ⊎ WritesFront (WritesFolded text.now fill) (W.contents out.old) (W.contents out.new) }
    ensures statuses { (result.status ≡ 0) ⊎ (3 ≤ result.status × result.status ≤ 5) }
{
    let Ok(Folded { deck, changes }) = fold(alloc, text, fill) else {
        return tell(&Fault::Memory, faults);
    };
    match check_deck(deck.as_slice()) {
        Ok(()) => write_folded(deck.as_slice(), &changes, out, faults),
        Err(fault) => refuse(deck.as_slice(), fault, faults),
    }
}
