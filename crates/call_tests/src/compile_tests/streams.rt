//! Decks that come card by card, over readers and writers that are sound and over some that fail.

ghost use Rattle.std.specs.Prelude.{◌≤◌};

use card_code::read_deck;
use compile407::{Compiled, RunFault, StreamCause, StreamFault, compile, run, run_stream};
use report_streams::card_lines::ReadFault;
use report_streams::devices::limited::{LimitedReader, LimitedWriter, Stop};
use report_streams::devices::{FromKnown, ToKnown};
use std::alloc::Global;
use std::test::Fail;

/// A list of names and items, eight lines to a page.
const BOLTS: &[u8] =
    b"FIELD NAME TEXT 1 6\nFIELD ITEM TEXT 8 10\nPRINT DETAIL\nDETAIL 1 NAME\nDETAIL 9 ITEM\nFORM 12 1 9\n";

/// Totals of one digit by a control field.
const GROUPS: &[u8] =
    b"FIELD A AMOUNT 1 1 0\nFIELD N TEXT 2 2\nCONTROL 1 N\nPRINT GROUP\nTOTAL 1 1 A 1\nFORM 12 1 9\n";

const CARDS: u64 = 40;

/// Five pages of 101 bytes.
const ALL_BYTES: u64 = 505;

/// The compiled chart of some lines, between the first line and END.
fn compiled_of(alloc: Global, lines: &[u8]) -> Result<Compiled, Fail> {
    let text = [b"CHART407 1\n", lines, b"END\n"].concat(alloc)?;
    Ok(compile(alloc, text.as_slice())?)
}

/// Forty cards of ten characters, a line of eleven bytes for each.
fn forty_bolts(alloc: Global) -> Result<Vec<u8>, Fail> {
    let mut deck = Vec::new(alloc);
    for _ in 0..CARDS {
        deck.extend_from_slice(b"BOLT   A01\n")?;
    }
    Ok(deck)
}

/// Runs a deck that comes in parts of at most `most` bytes, and of one at least, or fails at a read.
fn stream(
    alloc: Global,
    compiled: &Compiled,
    deck: &[u8],
    most: usize,
    fails_at: Option<u64>,
    writer: &mut LimitedWriter,
) -> Result<u64, StreamFault> {
    let mut source = FromKnown::known(LimitedReader::new(deck, most.max(1), fails_at));
    let mut sink = ToKnown::known(writer);
    run_stream(alloc, compiled, &mut source, &mut sink)
}

/// How many bytes so many lines are, up to the last of them: a blank line before the first of a page, 12 bytes for each, and 101 for each
/// page that has ended.
fn bytes_of(lines: u64) -> u64
    requires { lines ≤ 40 }
{
    if lines == 0 {
        return 0;
    }
    let before = lines - 1;
    101 * (before / 8) + 1 + 12 * (before % 8 + 1)
}

#[test]
fn reads_bring_parts_of_any_length_or_fail(rt: HostRuntime) -> Result<(), Fail> {
    let compiled = compiled_of(rt.alloc(), BOLTS)?;
    let deck = forty_bolts(rt.alloc())?;
    for most in [1, 7, 11, 4096] {
        let mut writer = LimitedWriter::new(rt.alloc(), 4096, None);
        let answer = stream(
            rt.alloc(),
            &compiled,
            deck.as_slice(),
            most,
            None,
            &mut writer,
        );
        assert_eq!(rt; answer, Ok(CARDS));
        assert_eq!(rt; writer.bytes().len() as u64, ALL_BYTES);
        assert!(rt; writer.is_flushed());
    }
    // The read after the last line finds the end.
    for read in 1..42 {
        let mut writer = LimitedWriter::new(rt.alloc(), 4096, None);
        let answer = stream(
            rt.alloc(),
            &compiled,
            deck.as_slice(),
            11,
            Some(read),
            &mut writer,
        );
        // The last valid card waits for the next one.
        let written = bytes_of(read.saturating_sub(2));
        let fault = ReadFault::Read { line: read as u32 };
        assert_eq!(rt;
            answer,
            Err(StreamFault {
                cause: StreamCause::Card { fault },
                written
            })
        );
        assert_eq!(rt; writer.bytes().len() as u64, written);
    }
    assert_eq!(rt; bytes_of(15), 186);
    Ok(())
}

#[test]
fn each_write_may_fail_or_take_nothing_and_the_flush_may_fail(rt: HostRuntime) -> Result<(), Fail> {
    let compiled = compiled_of(rt.alloc(), BOLTS)?;
    let deck = forty_bolts(rt.alloc())?;
    for write in 1..506 {
        for stop in [Stop::Fails { write }, Stop::TakesNone { write }] {
            let mut writer = LimitedWriter::new(rt.alloc(), 1, Some(stop));
            let answer = stream(
                rt.alloc(),
                &compiled,
                deck.as_slice(),
                4096,
                None,
                &mut writer,
            );
            assert_eq!(rt;
                answer,
                Err(StreamFault {
                    cause: StreamCause::Write,
                    written: write - 1
                })
            );
            assert_eq!(rt; writer.bytes().len() as u64, write - 1);
            assert_eq!(rt; writer.writes(), write);
        }
    }
    let rows: [(&[u8], u64); 2] = [(b"", 0), (deck.as_slice(), ALL_BYTES)];
    for (cards, written) in rows {
        let mut writer = LimitedWriter::new(rt.alloc(), 4096, Some(Stop::FailsToFlush));
        let answer = stream(rt.alloc(), &compiled, cards, 4096, None, &mut writer);
        assert_eq!(rt;
            answer,
            Err(StreamFault {
                cause: StreamCause::Write,
                written
            })
        );
    }
    Ok(())
}

#[test]
fn a_deck_that_is_held_whole_is_checked_first(rt: HostRuntime) -> Result<(), Fail> {
    let rows: [(&[u8], RunFault); 2] = [
        (
            b"5A\n5A\n1B\n1B\nXB\n",
            RunFault::NotAmount { card: 5, column: 1 },
        ),
        (b"5A\n5A\nX\n", RunFault::NotAmount { card: 3, column: 1 }),
    ];
    let compiled = compiled_of(rt.alloc(), GROUPS)?;
    for (deck, fault) in rows {
        let cards = read_deck(rt.alloc(), deck)?;
        let refused = run(rt.alloc(), &compiled, cards.as_slice());
        assert!(rt; refused.err() == Some(fault));
    }
    let cards = read_deck(rt.alloc(), b"5A\n4A\n1B\n")?;
    let pages = run(rt.alloc(), &compiled, cards.as_slice())?;
    assert!(rt; pages.as_slice() == b"\n9\n1\n\n\n\n\n\n\n\n\n\n\x0C".as_slice());
    Ok(())
}
