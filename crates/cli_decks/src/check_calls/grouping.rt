//! The command that checks a deck and tells the control keys that come back in it, over any reader and writer.

ghost use Rattle.std.specs.Prelude.{◌≡◌, ◌⊎◌, List, ℕ, IfErr, IfOk, OnOk};
ghost use Rattle.card_code.specs.Deck.{Deck, IsDeckText};
ghost use Rattle.cli_decks.specs.CheckCalls.Grouped.{EndsGrouped, PrintsGrouped, StopsGrouped, WritesGrouped};
ghost use Rattle.cli_decks.specs.DeckNotes.KeyReturns.Words.{returns_told};

use crate::check_calls::deck_checks::{check_cards, put};
use crate::deck_notes::key_returns::{key_returns, write_returns};
use card_code::read_deck;
use chart_rules::Chart;
use compile407::compile;
use fault_lines::faults::{Fault, unprinted};
use fault_lines::program_io::read_whole;
use std::alloc::Global;
use std::io::{Read, Write};

// What is told of the keys that come back in a deck.
fn returns_text<'a>(alloc: Global, chart: &Chart, deck: &[u8]) -> Result<Vec<u8>, Fault<'a>>
    requires { IsDeckText deck.now }
    ensures returns { IfOk result (λ text. (cards : List (List ℕ)) → Deck deck.now cards → text.items ≡ returns_told chart.now.lines cards) }
    ensures told { IfErr result (λ told. (told ≡ Fault.Memory) ⊎ (told ≡ Fault.Write)) }
{
    let cards = read_deck(alloc, deck)?;
    let cards = cards.as_slice();
    let list = key_returns(alloc, chart, cards)?;
    let mut text = Vec::new(alloc);
    match write_returns(&mut text, chart, cards, list.as_slice()) {
        Ok(()) => Ok(text),
        Err(error) => Err(unprinted(&error)),
    }
}

// Lists what is told of a deck, and, if nothing is wrong with it, the keys that come back.
fn list_grouped<'a, W: Write>(
    alloc: Global,
    chart: &Chart,
    deck: &[u8],
    out: &mut W,
) -> Result<(), Fault<'a>>
    ensures fine { OnOk result (WritesGrouped chart.now deck.now (W.contents out.old) (W.contents out.new)) }
    ensures ends { IfErr result (λ told. EndsGrouped chart.now deck.now (W.contents out.old) (W.contents out.new) told) }
{
    check_cards(alloc, chart, deck, out)?;
    let text = returns_text(alloc, chart, deck)?;
    put(out, text.as_slice())
}

/// Compiles a chart, reads a deck whole, and prints what [`print_check`](crate::check_calls::print_check) prints of it; and, if nothing is wrong with it, the control keys
/// that come back. `path` names the deck in what is told of one that can't be read.
///
/// # Errors
///
/// The fault of the chart, else `File` of a deck that can't be read, and nothing is printed; else what `print_check` tells of the deck. `Memory` where
/// a growth was refused and `Write` where the output can't be written: then the front of the answer may have been printed.
pub fn print_grouped<'a, R: Read + Drop, W: Write>(
    alloc: Global,
    chart: &[u8],
    path: &'a str,
    deck: R,
    out: &mut W,
) -> Result<(), Fault<'a>>
    ensures fine { OnOk result (PrintsGrouped chart.now (R.remaining deck) (W.contents out.old) (W.contents out.new)) }
    ensures stops { IfErr result (λ told. StopsGrouped chart.now (R.remaining deck) (W.contents out.old) (W.contents out.new) told
        (Fault.File path.entry) (out.new ≡ out.old)) }
{
    let compiled = compile(alloc, chart)?;
    let bytes = read_whole(alloc, deck, path)?;
    list_grouped(alloc, compiled.chart(), bytes.as_slice(), out)
}
