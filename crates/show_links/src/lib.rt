//! Links on the page of a run to what has an element there, and where the sums behind printed figures stand on it.
//!
//! A page shows some of the cards of a deck and some of the cycles of its run: [`ShownRun`] tells which. [`write_card_word`] and
//! [`write_cycle_word`] name a card and a cycle, as a link if it is one of them. `specs/Links.antt` says what is written.
//!
//! - `sum_places`: where the sums behind printed figures stand on the page of a run
#![tactic(auto)]

mod links;
mod shown;
pub mod sum_places;

pub use links::{
    write_card_link, write_card_name, write_card_open, write_card_word, write_cycle_word,
    write_row_name,
};
pub use shown::{Shown, ShownRun};
