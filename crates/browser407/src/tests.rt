//! Each export once, on texts that are small enough to be worked out by hand.

use crate::answer::Answer;
use crate::guides::{page_explain, page_ledger, page_show, page_trace};
use crate::panels::{
    page_chart, page_match, page_match_deck, page_replay, page_replay_by_orders, page_upgrade,
};
use crate::reports::{
    page_check_deck, page_fields, page_group_deck, page_run, page_run_pages, page_run_whole,
    page_show_deck,
};
use crate::texts::{
    page_check, page_fault, page_fold, page_layout, page_legend, page_list_faults, page_wire,
};

// A listing of one column, its panel in both versions, two cards, and its one page: nothing on line 1, the cards on lines 2 and 3 of the twelve.
const CHART: &[u8] =
    b"CHART407 2\nFIELD NAME TEXT 1 1\nPRINT DETAIL\nDETAIL 1 NAME\nFORM 12 1 9\nEND\n";

const WIRING: &[u8] = b"WIRING407 1\nFORM 12 1 9\nJACK LIST\nWIRE SR.1 W.1\nEND\n";

const UPGRADED: &[u8] = b"WIRING407 2\nFORM 12 1 9\nJACK LIST\nWIRE SR.1 W.1\nEND\n";

const DECK: &[u8] = b"A\nB\n";

const PAGE: &[u8] = b"\nA\nB\n\n\n\n\n\n\n\n\n\n\x0c";

// What a page lends to a call.
#[derive(Drop)]
struct Lent {
    out: [u8; 1024],
    answer: Answer,
}

impl Lent {
    fn new() -> Lent {
        Lent {
            out: [0; 1024],
            answer: Answer {
                bytes: 0,
                told: 0,
                status: 9,
                fits: false,
            },
        }
    }

    // Whether a call was done, wrote this and told nothing.
    fn has(&self, text: &[u8]) -> bool {
        self.answer.status == 0
            && self.answer.fits
            && self.answer.bytes == text.len()
            && self.answer.told == 0
            && self.out.starts_with(text)
    }
}

#[test]
fn a_listing_is_printed(rt: HostRuntime) {
    let alloc = rt.alloc();
    let mut lent = Lent::new();
    page_run(alloc, CHART, DECK, &mut lent.out, &mut lent.answer);
    assert!(rt; lent.has(PAGE));
    page_run_whole(alloc, CHART, DECK, &mut lent.out, &mut lent.answer);
    assert!(rt; lent.has(PAGE));
    page_run_pages(alloc, CHART, DECK, 1, 1, &mut lent.out, &mut lent.answer);
    assert!(rt; lent.has(PAGE));
    page_replay(alloc, WIRING, DECK, &mut lent.out, &mut lent.answer);
    assert!(rt; lent.has(PAGE));
    page_run(alloc, CHART, DECK, &mut lent.out[..9], &mut lent.answer);
    assert!(rt; lent.answer.status == 0 && !lent.answer.fits && lent.answer.bytes == PAGE.len());
}

#[test]
fn decks_are_checked(rt: HostRuntime) {
    let alloc = rt.alloc();
    let mut lent = Lent::new();
    page_check_deck(alloc, CHART, DECK, &mut lent.out, &mut lent.answer);
    assert!(rt; lent.answer.status == 0);
    page_show_deck(alloc, CHART, DECK, &mut lent.out, &mut lent.answer);
    assert!(rt; lent.answer.status == 0);
    page_group_deck(alloc, CHART, b"?\n", &mut lent.out, &mut lent.answer);
    assert!(rt; lent.answer.status == 3);
    page_fields(alloc, CHART, DECK, 3, &mut lent.out, &mut lent.answer);
    assert!(rt; lent.answer.status == 3);
    page_fold(alloc, b"a\n", b"-", &mut lent.out, &mut lent.answer);
    assert!(rt; lent.answer.status == 0 && lent.out.starts_with(b"A\n"));
    page_fold(alloc, b"a\n", b"--", &mut lent.out, &mut lent.answer);
    assert!(rt; lent.answer.status == 2);
}

#[test]
fn charts_and_panels_are_read(rt: HostRuntime) {
    let alloc = rt.alloc();
    let mut lent = Lent::new();
    page_check(alloc, CHART, &mut lent.out, &mut lent.answer);
    assert!(rt; lent.has(b"ok\n"));
    page_list_faults(alloc, WIRING, &mut lent.out, &mut lent.answer);
    assert!(rt; lent.has(b"ok\n"));
    page_wire(alloc, CHART, &mut lent.out, &mut lent.answer);
    assert!(rt; lent.has(WIRING));
    page_upgrade(alloc, WIRING, &mut lent.out, &mut lent.answer);
    assert!(rt; lent.has(UPGRADED));
    page_match(alloc, CHART, WIRING, true, &mut lent.out, &mut lent.answer);
    assert!(rt; lent.has(b"ok\n"));
    page_match_deck(alloc, CHART, WIRING, DECK, &mut lent.out, &mut lent.answer);
    assert!(rt; lent.has(b"ok\n"));
    page_chart(alloc, WIRING, &mut lent.out, &mut lent.answer);
    assert!(rt; lent.answer.status == 0);
    page_replay_by_orders(alloc, WIRING, b"1\n", DECK, &mut lent.out, &mut lent.answer);
    assert!(rt; lent.answer.status == 3);
}

#[test]
fn runs_are_explained(rt: HostRuntime) {
    let alloc = rt.alloc();
    let mut lent = Lent::new();
    page_layout(alloc, CHART, &mut lent.out, &mut lent.answer);
    assert!(rt; lent.answer.status == 0);
    page_legend(alloc, CHART, &mut lent.out, &mut lent.answer);
    assert!(rt; lent.answer.status == 0);
    page_explain(
        alloc,
        CHART,
        DECK,
        1,
        2,
        1,
        false,
        &mut lent.out,
        &mut lent.answer,
    );
    assert!(rt; lent.answer.status == 0);
    page_ledger(
        alloc,
        CHART,
        DECK,
        2,
        1,
        1,
        true,
        &mut lent.out,
        &mut lent.answer,
    );
    assert!(rt; lent.answer.status == 3);
    page_trace(alloc, WIRING, DECK, &mut lent.out, &mut lent.answer);
    assert!(rt; lent.answer.status == 0);
    page_show(alloc, CHART, DECK, 0, &mut lent.out, &mut lent.answer);
    assert!(rt; lent.answer.status == 0);
    page_fault(alloc, 200, &mut lent.out, &mut lent.answer);
    assert!(rt; lent.answer.status == 2);
}
