//! A check of a deck, line by line.

ghost use Rattle.std.specs.Prelude.{◌≡◌, ◌+◌, ◌⊎◌, ℕ, List, Option, IfErr, IfOk, MatchResult, OnOk, true};
ghost use Rattle.std.specs.Io.KnownBytes.{Appends};
ghost use Rattle.cli_decks.specs.CheckCalls.DeckChecks.Endings.{EndsCheck, WritesFine};
ghost use Rattle.cli_decks.specs.CheckCalls.DeckChecks.Fine.{fine_words};
ghost use Rattle.cli_decks.specs.CheckCalls.DeckChecks.HelperStanding.{BreaksOff, GoesOn, Stands};

use crate::check_calls::deck_checks::line::next_line;
use crate::check_calls::deck_checks::listing::{Listing, put};
use crate::check_calls::deck_checks::standing::Standing;
use arrayvec::ArrayVec;
use card_code::{DeckFault, MOST_CARDS, without_cr};
use chart_rules::Chart;
use fault_lines::faults::{Fault, unprinted};
use std::alloc::Global;
use std::io::{BufReader, Read, Write};

// Reads the next line, or finds the end of the deck, and lists what is told there. Answers whether there was a line.
fn step<'a, R: Read, W: Write>(
    chart: &Chart,
    reader: &mut R,
    standing: &mut Standing,
    listing: &mut Listing<'a>,
    out: &mut W,
) -> Result<bool, Fault<'a>>
    requires { (deck was : Option (List ℕ)) × Stands chart.now deck was (R.remaining reader.old) (W.contents out.old) standing.old listing.old.first }
    ensures goes_on { (deck was : Option (List ℕ)) → Stands chart.now deck was (R.remaining reader.old) (W.contents out.old) standing.old listing.old.first
        → MatchResult result
        (GoesOn chart.now deck was (R.remaining reader.new) (W.contents out.new) standing.new listing.new.first)
        (λ told. EndsCheck chart.now deck was (W.contents out.new) told) }
    ensures counted { IfOk result (λ goes_on. goes_on ≡ true → standing.new.count ≡ standing.old.count + 1) }
{
    let mut line = ArrayVec::new();
    let Ok(is_there) = next_line(reader, &mut line) else {
        return Err(Fault::Unread {
            card: standing.count() + 1,
        });
    };
    if !is_there {
        listing.list(standing.end(chart), out)?;
        return Ok(false);
    }
    if standing.count() == MOST_CARDS as u32 {
        return Err(DeckFault::TooManyCards.into());
    }
    let told = standing.take(chart, without_cr(line.as_slice()));
    listing.list(told, out)?;
    Ok(true)
}

// The words that are told where nothing is wrong with a deck.
fn fine_text<'a>(alloc: Global, standing: &Standing) -> Result<Vec<u8>, Fault<'a>>
    ensures fine { IfOk result (λ text. text.items ≡ fine_words standing.now.count standing.now.first standing.now.last) }
    ensures told { IfErr result (λ told. (told ≡ Fault.Memory) ⊎ (told ≡ Fault.Write)) }
{
    let mut text = Vec::new(alloc);
    match standing.write_fine(alloc, &mut text) {
        Ok(()) => Ok(text),
        Err(error) => Err(unprinted(&error)),
    }
}

// Tells that nothing is wrong with a deck, how many cards it has, and the first and the last one.
fn tell_fine<'a, W: Write>(alloc: Global, standing: &Standing, out: &mut W) -> Result<(), Fault<'a>>
    ensures written { OnOk result (Appends (W.contents out.old) (W.contents out.new)
        (fine_words standing.now.count standing.now.first standing.now.last)) }
    ensures broken { IfErr result (λ told. BreaksOff
        (fine_words standing.now.count standing.now.first standing.now.last) (W.contents out.old) (W.contents out.new) told) }
{
    let text = fine_text(alloc, standing)?;
    put(out, text.as_slice())
}

// Checks all lines that a reader has left.
fn check_lines<'a, R: Read, W: Write>(
    alloc: Global,
    chart: &Chart,
    reader: &mut R,
    out: &mut W,
) -> Result<(), Fault<'a>>
    ensures fine { OnOk result (WritesFine chart.now (R.remaining reader.old) (W.contents out.old) (W.contents out.new)) }
    ensures ends { IfErr result (λ told. EndsCheck chart.now (R.remaining reader.old) (W.contents out.old) (W.contents out.new) told) }
{
    let mut standing = Standing::new(chart);
    let mut listing = Listing::new(alloc);
    while step(chart, reader, &mut standing, &mut listing, out)? {}
    match listing.first() {
        Some(fault) => Err(fault),
        None => tell_fine(alloc, &standing, out),
    }
}

/// Lists all cards of a deck that a chart can't be run with: writes a line for each, in the order of the deck, as a run would tell the card
/// were it the first bad one; and, where there is none, `ok`, how many cards there are, and the first and the last one as they print.
///
/// A line that is no card is bad, and so is a card that is not valid for the chart; of one with several faults the first is told. As long as
/// no card was bad, each card with which a group ends that has a total that does not fit has a line too, for the first such total; behind a
/// bad card no totals are tried. The deck is read line by line: one line, one card and the sums of the unfinished groups are held.
///
/// # Errors
///
/// The fault that was listed first, once the whole deck was read. `Unread` where the reader fails, and `Whole` with number 3 at line
/// 1,000,000: what was listed before stands written. `Memory` where a growth was refused and `Write` where the output can't be written:
/// then the front of the listing stands written.
pub fn check_cards<'a, R: Read + Drop, W: Write>(
    alloc: Global,
    chart: &Chart,
    deck: R,
    out: &mut W,
) -> Result<(), Fault<'a>>
    ensures fine { OnOk result (WritesFine chart.now (R.remaining deck) (W.contents out.old) (W.contents out.new)) }
    ensures ends { IfErr result (λ told. EndsCheck chart.now (R.remaining deck) (W.contents out.old) (W.contents out.new) told) }
{
    match BufReader::new(alloc, deck) {
        Ok(mut reader) => check_lines(alloc, chart, &mut reader, out),
        Err(_) => Err(Fault::Memory),
    }
}
