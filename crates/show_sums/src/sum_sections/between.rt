//! The two cards between which a total was printed.

ghost use Rattle.std.specs.Prelude.{◌≡◌, ◌<◌, ◌+◌, ◌^◌, ◌++◌, OnOk};
ghost use Rattle.std.specs.String.{string_bytes};
ghost use Rattle.show_sums.specs.SumSections.Between.{card_at, card_front, card_picture, cards_between, picture_open};

use show_drawings::drawings::card_drawing::write_shown_card;
use show_links::{Shown, write_card_name, write_card_open};
use std::alloc::AllocError;

#[tactic(auto, unfolding(crate::specs::SumSections::Between::picture_open))]
// The front of a picture.
fn write_picture_open(text: &mut String) -> Result<(), AllocError>
    ensures { OnOk result (string_bytes text.new ≡ string_bytes text.old ++ picture_open) }
{
    text.push_str("<svg xmlns=\"http://www.w3.org/2000/svg\" viewBox=\"0 -70 1250 510\"><title>")
}

#[tactic(auto, unfolding(crate::specs::SumSections::Between::card_front))]
// The link of a card, and the name of its picture.
fn write_card_front(text: &mut String, number: usize) -> Result<(), AllocError>
    ensures { OnOk result (string_bytes text.new ≡ string_bytes text.old ++ card_front number) }
{
    write_card_open(text, number)?;
    write_picture_open(text)?;
    write_card_name(text, number)?;
    text.push_str("</title>")
}

#[tactic(auto, unfolding(crate::specs::SumSections::Between::card_picture))]
// A card, which is a link.
fn write_card_picture(text: &mut String, number: usize) -> Result<(), AllocError>
    ensures { OnOk result (string_bytes text.new ≡ string_bytes text.old ++ card_picture number) }
{
    write_card_front(text, number)?;
    write_shown_card(text, number)?;
    text.push_str("</svg></a>\n")
}

// The same, if it is shown.
fn write_card_at(text: &mut String, shown: Shown, number: usize) -> Result<(), AllocError>
    ensures { OnOk result (string_bytes text.new ≡ string_bytes text.old ++ card_at shown number) }
{
    if shown.has(number) {
        write_card_picture(text, number)
    } else {
        Ok(())
    }
}

#[tactic(auto, unfolding(crate::specs::SumSections::Between::cards_between))]
// The card with this number, and the next one.
pub(crate) fn write_cards_between(
    text: &mut String,
    shown: Shown,
    card: usize,
) -> Result<(), AllocError>
    requires { card + 1 < 2 ^ 64 }
    ensures { OnOk result (string_bytes text.new ≡ string_bytes text.old ++ cards_between shown card) }
{
    write_card_at(text, shown, card)?;
    write_card_at(text, shown, card + 1)
}
