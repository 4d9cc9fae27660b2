//! Feeds of a panel that lists one column. The expected lines follow from the machine's rules by hand.

use crate::given::setup_of;
use card_code::{MOST_CARDS, read_deck};
use hubs::setups::{Setup, Tape};
use hubs::{Hub, Jack};
use machine::{FeedFault, Machine, PlacedLine, simulate};
use std::alloc::Global;
use std::test::Fail;

// A panel whose wheel 1 prints column 1 of each card, on forms of 12 lines with the first line 1 and the overflow line 9.
fn listing(alloc: Global) -> Result<Setup, Fail> {
    let tape = Tape::new(12, 1, 9, &[])?;
    let mut setup = setup_of(alloc, tape, &[(Hub::SR(1), Hub::W(1))])?;
    setup.plug(Jack::List);
    Ok(setup)
}

// Whether the lines stand at these places, with a text of one character each.
fn read_so(lines: &[PlacedLine], expected: &[(u64, u32, u8)]) -> bool {
    if lines.len() != expected.len() {
        return false;
    }
    for (placed, (page, line, character)) in lines.iter().zip(expected) {
        let mut text = [b' '; 120];
        text[0] = *character;
        if placed.page != *page || placed.line != *line || placed.text != text {
            return false;
        }
    }
    true
}

// The lines of a machine that is fed the cards of a deck, then so many ends, then the cards of another deck, and what the
// last feed answered.
fn fed(
    alloc: Global,
    deck: &[u8],
    ends: u8,
    after: &[u8],
) -> Result<(Vec<PlacedLine>, Result<(), FeedFault>), Fail> {
    let setup = listing(alloc)?;
    let mut machine = Machine::new(alloc, &setup)?;
    let mut lines = Vec::new(alloc);
    let mut last = Ok(());
    for card in &read_deck(alloc, deck)? {
        last = machine.feed(Some(*card), &mut lines);
    }
    for _ in 0..ends {
        last = machine.feed(None, &mut lines);
    }
    for card in &read_deck(alloc, after)? {
        last = machine.feed(Some(*card), &mut lines);
    }
    Ok((lines, last))
}

#[test]
fn cards_and_ends_are_fed(rt: HostRuntime) -> Result<(), Fail> {
    // An end that comes first runs nothing, and nothing comes after an end.
    let (lines, last) = fed(rt.alloc(), b"", 2, b"")?;
    assert!(rt; lines.is_empty() && last == Err(FeedFault::Ended));
    let (lines, last) = fed(rt.alloc(), b"A\n", 1, b"B\n")?;
    assert!(rt; read_so(lines.as_slice(), &[(1, 2, b'A')]) && last == Err(FeedFault::Ended));
    // Feeds are a run. The eighth line stands on the overflow line, so the ninth begins a page.
    let deck = b"A\nB\nC\nD\nE\nF\nG\nH\nI\n";
    let cards = read_deck(rt.alloc(), deck)?;
    assert!(rt; cards.len() <= MOST_CARDS);
    let lines = simulate(rt.alloc(), &listing(rt.alloc())?, cards.as_slice())?;
    let (gained, last) = fed(rt.alloc(), deck, 1, b"")?;
    assert!(rt; last.is_ok() && gained.as_slice() == lines.as_slice());
    assert!(rt; lines.len() == 9 && read_so(&lines.as_slice()[7..], &[(1, 9, b'H'), (2, 2, b'I')]));
    Ok(())
}
