//! A machine that is wired for a chart prints the chart's report.
//!
//! The proof stands on three floors. `wired_panels` says what impulses reach which hubs of such a panel. `counter_cycles`, `totals`,
//! `printed_lines` and `line_places` say what impulses make of numbers, characters and places, cycle by cycle; of these `counter_cycles`
//! alone speaks of hubs and pictures, those of one counter group. `panel_cycles` of `wired_panels` joins the two. `decks` of `report_definition` goes through the cards, and names no
//! cycle and no hub. Here they are put together: `proofs/Instance` is what the machine holds between cycles, `proofs/Feed` the cycles of a
//! card, and `proofs/Runs` the deck.

pub mod laws;
