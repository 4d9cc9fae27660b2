//! The command that matches a panel with a chart and runs a deck on both, over any reader and writers.

ghost use Rattle.std.specs.Prelude.{◌≡◌, ◌≢◌, ◌≤◌, ◌⊎◌, ℕ, List, IfErr, IfOk, OnOk, length};
ghost use Rattle.std.specs.String.{string_bytes};
ghost use Rattle.card_code.specs.Deck.{Deck};
ghost use Rattle.card_code.specs.MostCards.{most_cards};
ghost use Rattle.fault_lines.specs.FaultsWords.Lines.{IsTold};
ghost use Rattle.cli_matching.specs.Decked.{LeavesOver, StopsOver, WritesFrontOver};
ghost use Rattle.cli_matching.specs.Found.{IsUnwiredText, IsWiredText, Prints};
ghost use Rattle.cli_matching.specs.Helper.{IsDeckText};
ghost use Rattle.cli_matching.specs.Panels.{HasPanels};
ghost use Rattle.cli_matching.specs.Unmatched.{IsToldUnmatched};
ghost use Rattle.fault_lines.specs.ProgramIo.Refusals.{RefusesDeck};

use crate::apart::apart_on;
use crate::found::{Found, found_of};
use crate::match_texts::{Counts, Telling};
use crate::outcome::Outcome;
use crate::panels::{Panels, cards_of, panels_of};
use crate::unmatched::{Unmatched, tell_unmatched};
use card_code::Card;
use fault_lines::faults::{Ending, Fault};
use fault_lines::program_io::{put, read_whole};
use std::alloc::Global;
use std::io::{Read, Write};

// What is found over a deck, and what is printed of it.
#[derive(Drop)]
struct Answer {
    outcome: Outcome,
    text: String,
}

#[tactic(auto, using(crate::proofs::Pairs::alike_told, crate::proofs::Pairs::otherwise_told))]
// What is found over the cards of a deck of a panel that is not wired for the chart, behind the text of what is missing and extra.
fn unwired_answer<'a>(
    alloc: Global,
    panels: &Panels,
    wiring: &[u8],
    counts: Counts,
    difference: String,
    cards: &[Card],
) -> Result<Answer, Fault<'a>>
    requires few { length cards.now ≤ most_cards }
    requires unwired { IsUnwiredText Telling.Wires wiring.now counts panels.now.version panels.now.compiled panels.now.setup (string_bytes difference) }
    ensures answer { IfOk result (λ answer. (deck : List ℕ) → Deck deck cards.now
        → IsDeckText wiring.now deck panels.now.version panels.now.compiled panels.now.setup answer.outcome (string_bytes answer.text)) }
    ensures memory { IfErr result (λ told. told ≡ Fault.Memory) }
{
    let mut text = difference;
    match apart_on(alloc, panels, cards)? {
        None => Ok(Answer {
            outcome: Outcome::Unwired { counts },
            text,
        }),
        Some(apart) => {
            text.push_str(apart.text.as_str())?;
            Ok(Answer {
                outcome: Outcome::PrintsOtherwise { place: apart.place },
                text,
            })
        }
    }
}

// What is found over the text of a deck.
fn deck_answer<'a>(
    alloc: Global,
    panels: &Panels,
    wiring: &[u8],
    deck: &[u8],
) -> Result<Answer, Fault<'a>>
    ensures answer { IfOk result (λ answer.
        IsDeckText wiring.now deck.now panels.now.version panels.now.compiled panels.now.setup answer.outcome (string_bytes answer.text)) }
    ensures refused { IfErr result (λ told. told ≢ Fault.Memory → RefusesDeck deck.now told) }
{
    let cards = cards_of(alloc, deck)?;
    let Found { counts, text } = found_of(alloc, Telling::Wires, panels, wiring)?;
    match counts {
        None => Ok(Answer {
            outcome: Outcome::Wired,
            text,
        }),
        Some(counts) => unwired_answer(alloc, panels, wiring, counts, text, cards.as_slice()),
    }
}

/// Prints whether a panel is wired for a chart, as [`print_match`](crate::print_match) does; where it is not, and prints a deck otherwise
/// than the chart's own panel, also why the first wheel of the first line that differs printed its character, on both panels. `path` names
/// the deck in what is told of one that can't be read.
///
/// # Errors
///
/// The fault of the planning chart, else that of the wiring chart, else that the deck can't be read, else the fault of its text, and nothing
/// is printed; else, where no plan is found by which the panel is wired for the chart, `PrintsOtherwise` with the place of the first line that
/// differs, or `Unwired` where none does. `Memory` where a growth was refused and `Write` where the output can't be written, and then the
/// front of it may have been printed.
pub fn print_deck_match<'a, R: Read + Drop, W: Write>(
    alloc: Global,
    chart: &[u8],
    wiring: &[u8],
    path: &'a str,
    deck: R,
    out: &mut W,
) -> Result<(), Unmatched<'a>>
    ensures printed { OnOk result (Prints chart.now wiring.now (λ _. IsWiredText) (W.contents out.old) (W.contents out.new)) }
    ensures stopped { IfErr result (λ told. StopsOver chart.now wiring.now (R.remaining deck) told (Fault.File path.entry)
        (W.contents out.old) (W.contents out.new) (out.new ≡ out.old)) }
    ensures front { (out.new ≡ out.old)
        ⊎ WritesFrontOver chart.now wiring.now (R.remaining deck) (W.contents out.old) (W.contents out.new) }
{
    let panels = panels_of(alloc, chart, wiring)?;
    let bytes = read_whole(alloc, deck, path)?;
    let answer = deck_answer(alloc, &panels, wiring, bytes.as_slice())?;
    put(out, answer.text.as_bytes())?;
    match answer.outcome {
        Outcome::Wired => Ok(()),
        Outcome::Unwired { counts } => Err(Unmatched::Unwired { counts }),
        Outcome::PrintsOtherwise { place } => Err(Unmatched::PrintsOtherwise { place }),
    }
}

/// Matches a panel with a planning chart as [`match_to_end`](crate::match_to_end) does, and runs a deck on it and on the chart's own panel
/// where it is not wired for the chart; tells on one line of `faults` why it doesn't match.
///
/// `path` names the deck in what is told of one that can't be read, after the faults of both texts. The statuses are 0 where the panel is
/// wired for the chart, and then nothing is told; 3 where it is not, and `fault 95 page P line L` is told of the first line that differs, or
/// `fault 94 missing A extra B` where none does, or where a text is refused, and nothing is printed; 4 where the deck can't be read, and
/// nothing is printed, or the output can't be written, 5 memory, and then the front of what
/// is found may have been printed.
pub fn match_deck_to_end<R: Read + Drop, W: Write, V: Write>(
    alloc: Global,
    chart: &[u8],
    wiring: &[u8],
    path: &str,
    deck: R,
    out: &mut W,
    faults: &mut V,
) -> Ending
    ensures wired { result.status ≡ 0
        → Prints chart.now wiring.now (λ _. IsWiredText) (W.contents out.old) (W.contents out.new) × (faults.new ≡ faults.old) }
    ensures unmatched { result.status ≡ 3 → (told : Unmatched)
        × LeavesOver chart.now wiring.now (R.remaining deck) told (W.contents out.old) (W.contents out.new) (out.new ≡ out.old)
        × IsToldUnmatched told result.is_told (V.contents faults.old) (V.contents faults.new) }
    ensures device { result.status ≡ 4 → ((out.new ≡ out.old) × HasPanels chart.now wiring.now
        × IsTold (Fault.File path.entry) result.is_told (V.contents faults.old) (V.contents faults.new))
        ⊎ IsTold Fault.Write result.is_told (V.contents faults.old) (V.contents faults.new) }
    ensures memory { result.status ≡ 5 → IsTold Fault.Memory result.is_told (V.contents faults.old) (V.contents faults.new) }
    ensures front { (out.new ≡ out.old)
        ⊎ WritesFrontOver chart.now wiring.now (R.remaining deck) (W.contents out.old) (W.contents out.new) }
    ensures statuses { (result.status ≡ 0) ⊎ (3 ≤ result.status × result.status ≤ 5) }
{
    match print_deck_match(alloc, chart, wiring, path, deck, out) {
        Ok(()) => Ending {
            status: 0,
            is_told: true,
        },
        Err(told) => tell_unmatched(&told, faults),
    }
}
