//! The rows of the cards at the stations, and what comparing collected and finds to differ.

use card_code::{Row, read_deck};
use hubs::Hub;
use net::{Cycle, Picture, Point, Unit};
use stations::{Comparing, Stations};
use std::test::Fail;

/// A card with A, rows 12 and 1, in column 1, `-`, row 11, in column 2, 9 in column 3 and 0 in column 80; and a card with 5 in column 1.
const DECK: &[u8] =
    b"A-9                                                                            0\n5\n";

/// Their rows, 9 to 0, then 11 and 12.
const FIRST: [u128; 12] = [1 << 2, 0, 0, 0, 0, 0, 0, 0, 1 << 0, 1 << 79, 1 << 1, 1 << 0];

const SECOND: [u128; 12] = [0, 0, 0, 0, 1 << 0, 0, 0, 0, 0, 0, 0, 0];

const NONE: [u128; 12] = [0; 12];

#[test]
fn rows_of_the_cards_at_the_stations(rt: HostRuntime) -> Result<(), Fail> {
    let mut stations = Stations::new();
    assert!(rt; stations.rows() == [NONE, NONE]);
    let mut expected = [[FIRST, NONE], [SECOND, FIRST]].into_iter();
    for card in &read_deck(rt.alloc(), DECK)? {
        stations.load(Some(*card));
        assert!(rt; Some(stations.rows()) == expected.next());
    }
    assert!(rt; expected.next().is_none());
    stations.load(None);
    assert!(rt; stations.rows() == [NONE, SECOND]);
    stations.load(None);
    assert!(rt; stations.rows() == [NONE, NONE]);
    Ok(())
}

// A picture of some hubs.
fn picture(hubs: &[Hub]) -> Picture {
    let mut picture = Picture::new();
    for &hub in hubs {
        picture.insert(hub);
    }
    picture
}

/// Rows with the entries that are impulsed at their points, the positions that are collected there at CA and at CB, and those that differ from
/// there on.
#[rattlefmt::skip]
static COMPARED: [(Row, &[Hub], (u32, u32), u128); 4] = [
    (Row::Nine, &[Hub::CA(1), Hub::CB(1), Hub::CB(30)], (1 << 0, 1 << 0 | 1 << 29), 1 << 29),
    (Row::Zero, &[Hub::CA(30), Hub::W(1)], (1 << 29, 0), 1 << 29),
    (Row::Eleven, &[Hub::CB(1)], (0, 1 << 0), 1 << 29 | 1 << 0),
    (Row::Twelve, &[Hub::CA(2), Hub::CA(3), Hub::CB(3)], (1 << 1 | 1 << 2, 1 << 2), 1 << 29 | 1 << 1 | 1 << 0),
];

/// Nothing is collected at any row.
const NOTHING: [(u32, u32); 12] = [(0, 0); 12];

// The positions that comparing finds to differ.
fn differing(comparing: &Comparing) -> u128 {
    let mut exits = Picture::new();
    comparing.emit(Cycle::Card, Point::K, &mut exits);
    exits.row(Hub::CX(1))
}

#[test]
fn positions_are_compared_row_by_row(rt: HostRuntime) {
    let mut comparing = Comparing::new();
    for (row, hubs, _, _) in COMPARED {
        comparing.sense(Cycle::RunIn, Point::Row(row), &picture(hubs));
    }
    assert!(rt;
        comparing.sets() == NOTHING && !comparing.has_difference() && differing(&comparing) == 0
    );
    let mut expected = NOTHING;
    for (row, hubs, collected, positions) in COMPARED {
        comparing.sense(Cycle::Card, Point::Row(row), &picture(hubs));
        expected[row.place()] = collected;
        assert!(rt; comparing.sets() == expected);
        assert!(rt; comparing.has_difference() && differing(&comparing) == positions);
    }
    assert!(rt;
        expected[0] == (1 << 0, 1 << 0 | 1 << 29)
            && expected[9] == (1 << 29, 0)
            && expected[10] == (0, 1 << 0)
            && expected[11] == (1 << 1 | 1 << 2, 1 << 2)
    );
    comparing.end_cycle(Cycle::Card);
    assert!(rt;
        comparing.sets() == NOTHING && !comparing.has_difference() && differing(&comparing) == 0
    );
}
