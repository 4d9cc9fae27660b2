//! Links to cards and cycles.

ghost use Rattle.std.specs.Prelude.{◌≡◌, ◌++◌, OnOk};
ghost use Rattle.std.specs.String.{string_bytes};
ghost use Rattle.show_links.specs.Links.{card_link, card_name, card_open, card_word, cycle_link, cycle_name, cycle_open, cycle_word, row_name};

use crate::shown::Shown;
use chart_numerals::{push_between, push_numbered};
use std::alloc::AllocError;

/// Writes the name of a row: as `p1l2`. Fails only where no memory is left.
pub fn write_row_name(text: &mut String, page: u64, line: u32) -> Result<(), AllocError>
    ensures { OnOk result (string_bytes text.new ≡ string_bytes text.old ++ row_name page line) }
{
    push_numbered(text, "p", page)?;
    push_numbered(text, "l", line)
}

#[tactic(auto, unfolding(crate::specs::Links::card_open))]
/// Writes a link to the element of a card, up to its words. Fails only if no memory is left.
pub fn write_card_open(text: &mut String, card: usize) -> Result<(), AllocError>
    ensures { OnOk result (string_bytes text.new ≡ string_bytes text.old ++ card_open card) }
{
    push_between(text, "<a href=\"#card", card, "\">")
}

#[tactic(auto, unfolding(crate::specs::Links::card_name))]
/// Writes what a card is called: `card 3`. Fails only if no memory is left.
pub fn write_card_name(text: &mut String, card: usize) -> Result<(), AllocError>
    ensures { OnOk result (string_bytes text.new ≡ string_bytes text.old ++ card_name card) }
{
    push_numbered(text, "card ", card)
}

#[tactic(auto, unfolding(crate::specs::Links::card_link))]
/// Writes a link to the element of a card, by its name: `card 3`. Fails only if no memory is left; a front of it may then have been
/// written.
pub fn write_card_link(text: &mut String, card: usize) -> Result<(), AllocError>
    ensures { OnOk result (string_bytes text.new ≡ string_bytes text.old ++ card_link card) }
{
    write_card_open(text, card)?;
    write_card_name(text, card)?;
    text.push_str("</a>")
}

/// Writes the name of a card, as a link if the card has an element. Fails only if no memory is left; a front of it may then have been
/// written.
pub fn write_card_word(text: &mut String, shown: Shown, card: usize) -> Result<(), AllocError>
    ensures { OnOk result (string_bytes text.new ≡ string_bytes text.old ++ card_word shown card) }
{
    if shown.has(card) {
        write_card_link(text, card)
    } else {
        write_card_name(text, card)
    }
}

#[tactic(auto, unfolding(crate::specs::Links::cycle_open))]
// A link to the element of a cycle, up to its words.
fn write_cycle_open(text: &mut String, cycle: usize) -> Result<(), AllocError>
    ensures { OnOk result (string_bytes text.new ≡ string_bytes text.old ++ cycle_open cycle) }
{
    push_between(text, "<a href=\"#cycle", cycle, "\">")
}

#[tactic(auto, unfolding(crate::specs::Links::cycle_name))]
// What a cycle is called.
fn write_cycle_name(text: &mut String, cycle: usize) -> Result<(), AllocError>
    ensures { OnOk result (string_bytes text.new ≡ string_bytes text.old ++ cycle_name cycle) }
{
    push_numbered(text, "cycle ", cycle)
}

#[tactic(auto, unfolding(crate::specs::Links::cycle_link))]
// A link to the element of a cycle, by its name.
fn write_cycle_link(text: &mut String, cycle: usize) -> Result<(), AllocError>
    ensures { OnOk result (string_bytes text.new ≡ string_bytes text.old ++ cycle_link cycle) }
{
    write_cycle_open(text, cycle)?;
    write_cycle_name(text, cycle)?;
    text.push_str("</a>")
}

/// Writes the name of a cycle, as a link if the cycle has an element. Fails only if no memory is left; a front of it may then have been
/// written.
pub fn write_cycle_word(text: &mut String, shown: Shown, cycle: usize) -> Result<(), AllocError>
    ensures { OnOk result (string_bytes text.new ≡ string_bytes text.old ++ cycle_word shown cycle) }
{
    if shown.has(cycle) {
        write_cycle_link(text, cycle)
    } else {
        write_cycle_name(text, cycle)
    }
}
