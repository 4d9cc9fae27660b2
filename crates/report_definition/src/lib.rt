//! What a planning chart's report of a deck is, said without any machine, and how it follows the cards one after another.
//!
//! `specs/` has a file for each notion: amounts and their values, edited amounts, control groups, the outline of a deck, the breaks
//! between its cards, totals and the decks that fit, misfits, the texts of lines, the form, places, and the bytes of the report. It knows
//! fields, groups, sums, lines and pages, and no station, counter or wire. Nothing is evaluated by these definitions: the machine
//! prints.
//!
//! - `decks`: how a report follows the cards of a deck, one after another
#![tactic(auto)]

pub mod decks;
pub mod laws;
