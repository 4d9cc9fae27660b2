//! Charts that break no rule, and the cards that are valid for a chart.
//!
//! [`check`] asks the rules of a chart in the order of their numbers, and answers a [`Chart`], or a [`RuleFault`] with the lowest
//! [`Rule`] that is broken and the lowest line that breaks it. [`valid_card`] tells whether a card is valid for a chart, and
//! else, as a [`CardFault`], the first field that is not. The test of each rule stands below: in `field_rules` of `chart_line_rules` what is said of
//! fields, levels and totals, in `print_rules` of it what is said of the wheels and the form.
//!
//! `specs/Rules.antt` joins those tests to the rules of a chart, and says which charts are lawful. That a chart or a card has
//! one fault at most is a law, and so is that charts of both versions that say the same are lawful alike (`specs/Versions.antt`).
//! The files `Helper..` there are words of the code alone, but for `HelperChecked`, `HelperTexts` and `HelperAmounts`, which say what a
//! checked chart keeps, and `HelperOnCard`, which contracts above speak of.
#![tactic(auto)]

mod amounts;
mod card;
mod chart;
mod checking;
mod controls;
mod fault;
mod outcomes;
mod rule;
mod texts;

pub use card::{CardFault, valid_card, valid_read_card};
pub use chart::Chart;
pub use chart_line_rules::print_rules::{Figure, Item, PrintedLine};
pub use checking::check;
pub use fault::RuleFault;
pub use outcomes::{cards_have_one_fault, charts_have_one_fault, versions_are_lawful_alike};
pub use rule::Rule;
