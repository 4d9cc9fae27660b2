//! Rules of the style sheet that mark the printed character of which the explanation is shown.

ghost use Rattle.std.specs.Prelude.{◌≡◌, ◌++◌, OnOk};
ghost use Rattle.std.specs.String.{string_bytes};
ghost use Rattle.show_page.specs.Frame.{IsStyle};
ghost use Rattle.show_page.specs.Marks.{page_rule, page_rules, rule_behind};

use chart_numerals::{push_between, push_number};
use page_text::placed_lines::PlacedLine;
use std::alloc::AllocError;

// The rule of a page.
fn push_page_rule(text: &mut String, page: u64) -> Result<(), AllocError>
    ensures { OnOk result (string_bytes text.new ≡ string_bytes text.old ++ page_rule page) }
{
    push_between(
        text,
        "body:has(>aside>:target[id^=p",
        page,
        "l][id*=w]) #page",
    )?;
    push_number(text, page)?;
    text.push_str("{--lt:inherit;--lu:inherit;--wt:inherit;--wu:inherit}\n")
}

#[tactic(auto, using(crate::proofs::MarkRules::rule_behind_is_style))]
// The rule of a page behind a line of another one, or of the same.
fn write_rule_behind(text: &mut String, before: u64, page: u64) -> Result<(), AllocError>
    ensures rule { OnOk result (string_bytes text.new ≡ string_bytes text.old ++ rule_behind before page) }
    ensures style { IsStyle (rule_behind before page) }
{
    if page == before {
        Ok(())
    } else {
        push_page_rule(text, page)
    }
}

// The rules that mark a character of some lines, one for each page: the lines come page by page, and pages are counted from 1.
pub(crate) fn write_marks(text: &mut String, lines: &[PlacedLine]) -> Result<(), AllocError>
    ensures rules { OnOk result (string_bytes text.new ≡ string_bytes text.old ++ page_rules lines.now) }
    ensures style { OnOk result (IsStyle (page_rules lines.now)) }
{
    let mut before = 0;
    for placed in lines {
        write_rule_behind(text, before, placed.page)?;
        before = placed.page;
    }
    Ok(())
}
