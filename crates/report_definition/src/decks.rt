//! How a report follows the cards of a deck, one after another.
//!
//! A report is said by groups within groups. A machine sees one card after another, and compares each with the next. The lines of
//! a report go by the breaks between consecutive cards, as a law of `report_definition` says. Here misfits and places follow, and a machine
//! that does the right thing with each card prints the report of every deck.
//!
//! `specs/FollowedDecks/` has the misfits of cards, where a report stands between two cards, and the machines that go by cards.
//! The laws on reports are the contracts of `laws`. The law on machines is about any kind of state, which no contract can be:
//! it is the lemmas of `proofs/FollowedDecks/Running.antt`, and a crate above that has a machine cites them.

pub mod laws;
