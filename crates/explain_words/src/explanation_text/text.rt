//! The whole text.

ghost use Rattle.std.specs.Prelude.{◌≡◌, ◌≤◌, ◌<◌, ◌⊎◌, ◌++◌, ℕ, List, Err, IfOk, OnOk, length};
ghost use Rattle.std.specs.String.{string_bytes};
ghost use Rattle.card_code.specs.MostCards.{most_cards};
ghost use Rattle.explain_wheels.specs.ExplanationsWords.Pages.{HasWays};
ghost use Rattle.explain_wheels.specs.ExplanationsWords.PlacedInRun.{IsFound, PrintsNoneAt};
ghost use Rattle.explain_wheels.specs.declared.explanations.refusal.Refusal.TheVariants.{NoSuchLine, NoSuchWheel};
ghost use Rattle.explain_words.specs.ExplanationText.ExplanationTexts.{Explains, IsTextOf, all_lines, lines_at, text_of};

use crate::explanation_text::asked::write_asked;
use crate::explanation_text::closing::write_closing;
use crate::explanation_text::lines::{write_cycle_line, write_page_line};
use crate::explanation_text::notes::{WayCycle, write_way_lines};
use card_code::Card;
use explain_wheels::explanations::{Explanation, LineWays, Refusal, find_line};
use hubs::setups::Setup;
use machine::KeptPoint;
use std::alloc::{AllocError, Global};

/// What is told of a wheel that printed a character.
#[derive(Drop)]
pub struct ToldWheel {
    /// Why it printed the character; the explanation has the line and the wheel.
    pub why: Explanation,
    /// The words of the explanation.
    pub words: String,
}

impl ToldWheel {
    ghost use Rattle.std.specs.Prelude.{◌≡◌};

    /// The words alone.
    pub fn into_words(self) -> String
        ensures { result ≡ self.words }
    {
        let ToldWheel { why: _why, words } = self;
        words
    }
}

/// Why a wheel of a line that a setup of the panel prints of a deck, of at most 999,999 cards, printed its character, and the text that
/// tells it. `asked` has words for each who asks for wires, say for each line of a planning chart, and a setup with the wires that it asks
/// for: behind each way a line names those who ask for a wire of it. It is empty where nobody is known.
///
/// Refused with `NoSuchWheel` where the wheel isn't one of 1 to 120, else with `NoSuchLine` where no line stands at this page and this
/// line of it, and with `Memory` where no memory is left.
pub fn explain_wheel(
    alloc: Global,
    setup: &Setup,
    asked: &[(String, Setup)],
    cards: &[Card],
    page: u64,
    line: u32,
    wheel: u8,
) -> Result<ToldWheel, Refusal>
    requires { length cards.now ≤ most_cards }
    ensures told { IfOk result (λ why. IsTextOf setup.now asked.now cards.now page line wheel why.why (string_bytes why.words)) }
    ensures no_wheel { (wheel < 1) ⊎ (120 < wheel) → result ≡ Err NoSuchWheel }
    ensures wheel { result ≡ Err NoSuchWheel → (wheel < 1) ⊎ (120 < wheel) }
    ensures no_line { result ≡ Err NoSuchLine → PrintsNoneAt setup.now cards.now page line }
{
    if wheel < 1 || 120 < wheel {
        return Err(Refusal::NoSuchWheel);
    }
    let Some(found) = find_line(alloc, setup, cards, page, line)? else {
        return Err(Refusal::NoSuchLine);
    };
    let ways = LineWays::of(alloc, setup, found)?;
    Ok(told_wheel(alloc, setup, asked, &ways, wheel)?)
}

/// The text alone of what [`explain_wheel`] tells, which is refused as there.
pub fn explain_text(
    alloc: Global,
    setup: &Setup,
    asked: &[(String, Setup)],
    cards: &[Card],
    page: u64,
    line: u32,
    wheel: u8,
) -> Result<String, Refusal>
    requires { length cards.now ≤ most_cards }
    ensures told { IfOk result (λ text. Explains setup.now asked.now cards.now page line wheel (string_bytes text)) }
    ensures no_wheel { (wheel < 1) ⊎ (120 < wheel) → result ≡ Err NoSuchWheel }
    ensures wheel { result ≡ Err NoSuchWheel → (wheel < 1) ⊎ (120 < wheel) }
    ensures no_line { result ≡ Err NoSuchLine → PrintsNoneAt setup.now cards.now page line }
{
    match explain_wheel(alloc, setup, asked, cards, page, line, wheel) {
        Ok(why) => Ok(why.into_words()),
        Err(refusal) => Err(refusal),
    }
}

// What is told of a wheel, 1 to 120, of a line that was found on this setup.
pub(crate) fn told_wheel(
    alloc: Global,
    setup: &Setup,
    asked: &[(String, Setup)],
    line: &LineWays,
    wheel: u8,
) -> Result<ToldWheel, AllocError>
    requires found { (deck : List (List ℕ)) × IsFound setup.now deck line.now.found }
    requires ways { HasWays setup.now line.now }
    requires wheel { (1 ≤ wheel) × (wheel ≤ 120) }
    ensures { (deck : List (List ℕ)) → IsFound setup.now deck line.now.found → IfOk result (λ why.
        IsTextOf setup.now asked.now deck line.now.found.kept.line.page line.now.found.kept.line.line wheel why.why (string_bytes why.words)) }
{
    let why = line.wheel(alloc, setup, wheel)?;
    let words = wheel_text(alloc, setup, asked, line, &why)?;
    Ok(ToldWheel { why, words })
}

/// The text of what was told of a wheel of a line. The setup is that by which the line was found, and `asked` names who asks for wires,
/// as for [`explain_text`]. Fails only where no memory is left.
pub fn wheel_text(
    alloc: Global,
    setup: &Setup,
    asked: &[(String, Setup)],
    line: &LineWays,
    told: &Explanation,
) -> Result<String, AllocError>
    requires { length told.now.rows.items ≡ 12 }
    ensures { IfOk result (λ text. string_bytes text ≡ text_of setup.now line.now.found.kept.points asked.now told.now) }
{
    let mut text = String::new(alloc);
    write_page_line(&mut text, told)?;
    write_cycle_line(&mut text, told)?;
    write_rows(&mut text, &line.found.kept.points, asked, told)?;
    write_closing(alloc, &mut text, setup, told)?;
    Ok(text)
}

// The lines of all rows.
fn write_rows(
    text: &mut String,
    points: &[KeptPoint; 14],
    asked: &[(String, Setup)],
    told: &Explanation,
) -> Result<(), AllocError>
    requires { length told.now.rows.items ≡ 12 }
    ensures { OnOk result (string_bytes text.new ≡ string_bytes text.old ++ all_lines points.now asked.now told.now) }
{
    for place in 0..12 {
        write_row(text, points, asked, told, place)?;
    }
    Ok(())
}

// The lines of the row at a place in the order of the points.
fn write_row(
    text: &mut String,
    points: &[KeptPoint; 14],
    asked: &[(String, Setup)],
    told: &Explanation,
    place: usize,
) -> Result<(), AllocError>
    requires rows { length told.now.rows.items ≡ 12 }
    requires place { place < 12 }
    ensures { OnOk result (string_bytes text.new ≡ string_bytes text.old ++ lines_at points.now asked.now told.now place) }
{
    match &told.rows[place] {
        Some(way) => {
            let cycle = WayCycle {
                card: told.cards,
                cycle: told.cycle,
                points,
            };
            write_way_lines(text, &cycle, place, way)?;
            write_asked(text, asked, way)
        }
        None => Ok(()),
    }
}
