//! Why a line stands where it stands.

ghost use Rattle.std.specs.Prelude.{◌≡◌, ◌≤◌, ◌++◌, IfOk, OnOk, length, option_to_list};
ghost use Rattle.card_code.specs.MostCards.{most_cards};
ghost use Rattle.explain_ledgers.specs.LedgersWords.Running.{HasCycle};
ghost use Rattle.explain_origins.specs.Placing.{IsLineBefore, IsPlacing, begun_words, behind_reason, behind_words, below_reason, below_words, by_words, first_words, line_with, line_words, named, placing_line, standing_words, turn_words};

use crate::asks::{write_overflow, write_page, write_skip, write_spacing};
use crate::changes::PassedCycle;
use card_code::Card;
use explain_ledgers::ledgers::FoundCycle;
use explain_ledgers::ledgers::ledger_text::write_cycle;
use explain_wheels::runs::DeckRun;
use hubs::setups::Setup;
use net::Cycle;
use page_text::placed_lines::PlacedLine;
use std::alloc::{AllocError, Global};
use std::io;
use std::io::Write;

// This cycle and the line that it placed, if it placed one, else the last one that did.
fn line_with(
    here: PassedCycle,
    placed: Option<PlacedLine>,
    last: Option<FoundCycle>,
) -> Option<FoundCycle>
    ensures { result ≡ line_with here (option_to_list placed) last }
{
    match placed {
        Some(line) => Some(FoundCycle {
            passed: here.passed,
            cycle: here.cycle,
            card: here.card,
            line,
        }),
        None => last,
    }
}

// The last line that a run of a deck through a setup placed before the cycle that comes behind so many others, which the run has.
fn line_before(
    alloc: Global,
    setup: &Setup,
    cards: &[Card],
    count: u64,
) -> Result<Option<FoundCycle>, AllocError>
    requires few { length cards.now ≤ most_cards }
    requires has { HasCycle setup.now cards.now count }
    ensures { IfOk result (IsLineBefore setup.now cards.now count) }
{
    let mut run = DeckRun::begin(alloc, setup, cards)?;
    let mut last = None;
    for passed in 0..count {
        let cycle = run.enter_due(setup, cards);
        run.leave(cycle);
        let here = PassedCycle {
            cycle,
            card: run.card,
            passed,
        };
        last = line_with(here, run.machine.line(), last);
    }
    Ok(last)
}

// Which cycle placed a line: a page has each heading once.
fn write_named(text: &mut Vec<u8>, cycle: Cycle, card: u32) -> io::Result<()>
    ensures { OnOk result (text.new.items ≡ text.old.items ++ named cycle card) }
{
    match cycle {
        Cycle::RunIn | Cycle::Card | Cycle::Prog(_, _) => write_cycle(text, cycle, card),
        Cycle::Head(heading) => {
            let heading = heading.number();
            write!(text, "Head {heading}")
        }
    }
}

fn write_by(text: &mut Vec<u8>, before: &FoundCycle) -> io::Result<()>
    ensures { OnOk result (text.new.items ≡ text.old.items ++ by_words before.now) }
{
    text.write_all(b" (")?;
    write_named(text, before.cycle, before.card)?;
    text.write_all(b")")
}

// How far a line is from the first line of the form.
fn write_first(text: &mut Vec<u8>, first: u32, line: u32) -> io::Result<()>
    ensures { OnOk result (text.new.items ≡ text.old.items ++ first_words first line) }
{
    if line == first {
        return text.write_all(b"at the first line");
    }
    if line < first {
        return write!(text, "above the first line {first}");
    }
    let below = line - first;
    write!(text, "{below} below the first line {first}")
}

// How far it is from the line before it, on the same page.
fn write_below(text: &mut Vec<u8>, before: &FoundCycle, line: u32) -> io::Result<()>
    ensures { OnOk result (text.new.items ≡ text.old.items ++ below_words before.now line) }
{
    let above = before.line.line;
    let below = line.saturating_sub(above);
    write!(text, "{below} below line {above}")?;
    write_by(text, before)
}

// The line before it, on another page.
fn write_behind(text: &mut Vec<u8>, before: &FoundCycle) -> io::Result<()>
    ensures { OnOk result (text.new.items ≡ text.old.items ++ behind_words before.now) }
{
    let line = before.line.line;
    let page = before.line.page;
    write!(text, ", behind line {line} of page {page}")?;
    write_by(text, before)
}

// Why no line of that page follows it.
fn write_turn(text: &mut Vec<u8>, setup: &Setup, before: &FoundCycle) -> io::Result<()>
    ensures { OnOk result (text.new.items ≡ text.old.items ++ turn_words setup.now before.now) }
{
    let line = before.line.line;
    write_skip(text, setup, before.cycle, line)?;
    write_overflow(text, setup, before.cycle, line)?;
    write_page(text, setup, before.cycle)
}

// Where a line without one before it stands, and why.
fn write_begun(text: &mut Vec<u8>, setup: &Setup, found: &FoundCycle) -> io::Result<()>
    ensures { OnOk result (text.new.items ≡ text.old.items ++ begun_words setup.now found.now) }
{
    write_first(text, u32::from(setup.tape().first()), found.line.line)?;
    write_spacing(text, setup, found.cycle)
}

// With one on the same page.
fn write_below_reason(
    text: &mut Vec<u8>,
    setup: &Setup,
    before: &FoundCycle,
    found: &FoundCycle,
) -> io::Result<()>
    ensures { OnOk result (text.new.items ≡ text.old.items ++ below_reason setup.now before.now found.now) }
{
    write_below(text, before, found.line.line)?;
    write_spacing(text, setup, found.cycle)?;
    write_skip(text, setup, before.cycle, before.line.line)
}

// With one on another page.
fn write_behind_reason(
    text: &mut Vec<u8>,
    setup: &Setup,
    before: &FoundCycle,
    found: &FoundCycle,
) -> io::Result<()>
    ensures { OnOk result (text.new.items ≡ text.old.items ++ behind_reason setup.now before.now found.now) }
{
    write_begun(text, setup, found)?;
    write_behind(text, before)?;
    write_turn(text, setup, before)
}

// Where a line stands and why, by the last line before it.
fn write_reason(
    text: &mut Vec<u8>,
    setup: &Setup,
    before: &Option<FoundCycle>,
    found: &FoundCycle,
) -> io::Result<()>
    ensures { OnOk result (text.new.items ≡ text.old.items ++ standing_words setup.now before.now found.now) }
{
    match before {
        Some(before) if before.line.page == found.line.page => {
            write_below_reason(text, setup, before, found)
        }
        Some(before) => write_behind_reason(text, setup, before, found),
        None => write_begun(text, setup, found),
    }
}

// Which line it is.
fn write_line(text: &mut Vec<u8>, line: &PlacedLine) -> io::Result<()>
    ensures { OnOk result (text.new.items ≡ text.old.items ++ line_words line.now) }
{
    let page = line.page;
    let line = line.line;
    write!(text, "line {line} of page {page} stands ")
}

// Why the line of a cycle stands where it stands, by the last line before it.
fn write_placing(
    text: &mut Vec<u8>,
    setup: &Setup,
    before: &Option<FoundCycle>,
    found: &FoundCycle,
) -> io::Result<()>
    ensures { OnOk result (text.new.items ≡ text.old.items ++ placing_line setup.now before.now found.now) }
{
    write_line(text, &found.line)?;
    write_reason(text, setup, before, found)?;
    text.write_all(b"\n")
}

// Puts behind a text why the line of a cycle stands where it stands.
pub(crate) fn add_placing(
    alloc: Global,
    text: &mut Vec<u8>,
    setup: &Setup,
    cards: &[Card],
    found: FoundCycle,
) -> Result<(), AllocError>
    requires few { length cards.now ≤ most_cards }
    requires has { HasCycle setup.now cards.now found.passed }
    ensures { OnOk result (IsPlacing setup.now cards.now found text.old.items text.new.items) }
{
    let before = line_before(alloc, setup, cards, found.passed)?;
    match write_placing(text, setup, &before, &found) {
        Ok(()) => Ok(()),
        Err(_) => Err(AllocError),
    }
}
