//! The texts of a page's wheels.

ghost use Rattle.std.specs.Prelude.{◌≡◌, ◌<◌, ◌⊎◌, ℕ, List, Err, IfOk};
ghost use Rattle.std.specs.String.{string_bytes};
ghost use Rattle.explain_wheels.specs.ExplanationsWords.Pages.{IsPage, IsPageOfSome};
ghost use Rattle.explain_wheels.specs.ExplanationsWords.PlacedInRun.{PrintsNoneAt};
ghost use Rattle.explain_wheels.specs.declared.explanations.refusal.Refusal.TheVariants.{NoSuchLine, NoSuchWheel};
ghost use Rattle.explain_words.specs.ExplanationText.ExplanationTexts.{Explains};

use crate::explanation_text::text::told_wheel;
use explain_wheels::explanations::{PageWays, Refusal};
use hubs::setups::Setup;
use std::alloc::Global;

/// The text that tells why a wheel of a line of a page printed its character, as [`crate::explanation_text::explain_text`] does, by the lines that one run
/// of the deck placed on the page. The setup is that by which the page was found, and `asked` names who asks for wires, as there.
///
/// Refused with `NoSuchWheel` where the wheel isn't one of 1 to 120, else with `NoSuchLine` where the page has no such line, and with
/// `Memory` where no memory is left.
pub fn page_wheel_text(
    alloc: Global,
    setup: &Setup,
    asked: &[(String, Setup)],
    page: &PageWays,
    line: u32,
    wheel: u8,
) -> Result<String, Refusal>
    requires { IsPageOfSome setup.now page.now.lines.items }
    ensures told { (deck : List (List ℕ)) (number : ℕ) → IsPage setup.now deck number page.now.lines.items
        → IfOk result (λ text. Explains setup.now asked.now deck number line wheel (string_bytes text)) }
    ensures no_wheel { (wheel < 1) ⊎ (120 < wheel) → result ≡ Err NoSuchWheel }
    ensures wheel { result ≡ Err NoSuchWheel → (wheel < 1) ⊎ (120 < wheel) }
    ensures no_line { (deck : List (List ℕ)) (number : ℕ) → IsPage setup.now deck number page.now.lines.items
        → result ≡ Err NoSuchLine → PrintsNoneAt setup.now deck number line }
{
    if wheel < 1 || 120 < wheel {
        return Err(Refusal::NoSuchWheel);
    }
    let Some(ways) = page.line(line) else {
        return Err(Refusal::NoSuchLine);
    };
    Ok(told_wheel(alloc, setup, asked, ways, wheel)?.into_words())
}
