//! The walk along the ways of an explanation: from the exit to the wheel, by wires of the wiring chart and by contacts.

use crate::walked_lines::{are_right, is_asked_by_some};
use crate::walked_texts::{
    character_at, has_jack, has_wire, has_word, line_numbered, number_of, rows_in, word_numbered,
};
use anyhow::{Result, bail};
use std::alloc::Global;

/// What a walk goes by: texts of the wiring chart, of the deck and of the card code, and where there is a planning chart, of that and of
/// its legend; both are empty where there is none.
#[derive(Clone, Copy)]
pub struct Ground<'a> {
    pub wiring: &'a str,
    pub chart: &'a str,
    pub legend: &'a str,
    pub deck: &'a str,
    pub code: &'a str,
}

/// The first of the hubs of a way, or of hubs that contacts join.
pub fn first_hub(hubs: &str) -> &str {
    match hubs.split_once(' ') {
        Some((first, _)) => first,
        None => hubs,
    }
}

/// The last of the hubs of a way, or of hubs that contacts join.
pub fn last_hub(hubs: &str) -> &str {
    match hubs.rsplit_once(' ') {
        Some((_, last)) => last,
        None => hubs,
    }
}

// The letters of the exits of a contact whose common hub has these letters.
fn exits_of(common: &str) -> &'static str {
    match common {
        "CI" => "CO",
        "IE" => "IX",
        "BAC" => "BAN BAT",
        "PIC" => "PIN PIT",
        "CSE" => "CSD CSZ",
        _ => "none",
    }
}

// Whether a contact leads from one hub to another: its letters go together, and the numbers are the same.
fn is_contact(from: &str, to: &str) -> bool {
    let Some((from_letters, from_numbers)) = from.split_once('.') else {
        return false;
    };
    let Some((to_letters, to_numbers)) = to.split_once('.') else {
        return false;
    };
    has_word(exits_of(from_letters), to_letters) && from_numbers == to_numbers
}

// Whether what stands between two wires is a hub, or two that a contact joins.
fn are_joined(hubs: &str) -> bool {
    match hubs.split_once(" => ") {
        Some((from, to)) => is_contact(from, to),
        None => !hubs.contains(' '),
    }
}

// Whether the wiring chart has a wire, and where there is a legend, a line that the notes name asks for it.
fn is_wired(ground: &Ground, notes: &str, from: &str, to: &str) -> bool {
    has_wire(ground.wiring, from, to)
        && (ground.legend == "" || is_asked_by_some(ground, notes, from, to))
}

// Whether a wire from a hub leads to others, which contacts join. To the first of a way no wire leads.
fn is_led(ground: &Ground, notes: &str, from: &str, hubs: &str) -> bool {
    are_joined(hubs) && (from == "" || is_wired(ground, notes, from, first_hub(hubs)))
}

// Whether wires that are asked for, and contacts, lead along a way.
fn are_led(ground: &Ground, way: &str, notes: &str) -> bool {
    let mut from = "";
    for hubs in way.split(" -> ") {
        if !is_led(ground, notes, from, hubs) {
            return false;
        }
        from = last_hub(hubs);
    }
    true
}

// Whether the card of a cycle has a row in a column.
fn is_punched(ground: &Ground, column: &str, row: &str, cycle: &str) -> bool {
    let Some(card) = cycle.strip_prefix("Card ") else {
        return false;
    };
    let columns = line_numbered(ground.deck, number_of(card));
    let punched = character_at(columns, number_of(column));
    has_word(rows_in(ground.code, punched), row)
}

// Whether an emitter's exit is that of a row.
fn is_sent(numbers: &str, row: &str) -> bool {
    match numbers.split_once('.') {
        Some((_, sent)) => sent == row,
        None => false,
    }
}

// Whether an exit can send at a row in a cycle: a column of the card at second reading that has the row; an emitter's exit of this row;
// a column of the other card, a counter position or a column of storage, of which the texts don't tell what they hold.
fn can_send(ground: &Ground, exit: &str, row: &str, cycle: &str) -> bool {
    let Some((letters, numbers)) = exit.split_once('.') else {
        return false;
    };
    match letters {
        "SR" => is_punched(ground, numbers, row, cycle),
        "EM" => is_sent(numbers, row),
        "FR" | "GX" | "SX" => true,
        _ => false,
    }
}

// What the ways of an explanation have in common: the cycle, the wheel's hub, and the rows of its character, which a blank has not.
#[derive(Clone, Copy)]
struct Wheel<'a> {
    ground: &'a Ground<'a>,
    cycle: &'a str,
    hub: &'a str,
    rows: Option<&'a str>,
}

// Whether the way with a number, from 1, is to be of a row.
fn is_row(wheel: &Wheel, number: u32, row: &str) -> bool {
    match wheel.rows {
        Some(rows) => word_numbered(rows, number) == row,
        None => true,
    }
}

// Goes along a way, from an exit that can send at a row to the wheel.
fn walk_way(wheel: &Wheel, row: &str, way: &str, notes: &str) -> Result<(), &'static str> {
    if !can_send(wheel.ground, first_hub(way), row, wheel.cycle) {
        return Err("an exit can't send");
    }
    if !are_led(wheel.ground, way, notes) {
        return Err("no contact and no wire leads there, or no line that is named asks for it");
    }
    if last_hub(way) != wheel.hub {
        return Err("a way doesn't end at the wheel");
    }
    Ok(())
}

// Walks the way with a number that a part of an explanation tells first, if it tells one: whether it does. The notes of the way stand
// behind it.
fn walk_part(wheel: &Wheel, number: u32, part: &str) -> Result<bool, &'static str> {
    let (row, way) = match line_numbered(part, 1).split_once(": ") {
        Some(told) => told,
        None => ("", ""),
    };
    if !are_right(wheel.ground, way, part) {
        return Err("a line is named that asks for no wire of the way");
    }
    if way == "" {
        return Ok(false);
    }
    if !is_row(wheel, number, row) {
        return Err("the rows are not those of the character");
    }
    walk_way(wheel, row, way, part)?;
    Ok(true)
}

// Walks all ways of an explanation, and answers how many there are. Each begins a line with its row.
fn walk_ways(wheel: &Wheel, text: &str) -> Result<u32, &'static str> {
    let mut ways = 0u32;
    for part in text.split("\nrow ") {
        if walk_part(wheel, ways.saturating_add(1), part)? {
            ways = ways.saturating_add(1);
        }
    }
    Ok(ways)
}

// Whether a wheel can be blanked by zero control.
fn can_be_blanked(wiring: &str, wheel: u8) -> bool {
    has_jack(wiring, "JACK SUPPRESS ", wheel) || has_jack(wiring, "JACK SYMBOL ", wheel)
}

// Whether there are as many ways as the character has rows; a blank has none, or a zero or a symbol that zero control can have blanked.
fn are_all(ground: &Ground, rows: Option<&str>, ways: u32, wheel: u8) -> bool {
    match rows {
        Some(rows) => word_numbered(rows, ways.saturating_add(1)) == "",
        None => ways == 0 || can_be_blanked(ground.wiring, wheel),
    }
}

// Whether a character is shown so.
fn is_shown(shown: &str, character: u8) -> bool {
    if character == b' ' {
        shown == "blank"
    } else {
        shown.len() == 1 && character_at(shown, 1) == character
    }
}

// Whether the first line of an explanation tells a place and then a character.
fn is_told(first: &str, place: &str, character: u8) -> bool {
    match first.strip_prefix(place) {
        Some(shown) => is_shown(shown, character),
        None => false,
    }
}

// The rows of a character; a blank has none.
fn rows_of(code: &str, character: u8) -> Option<&str> {
    if character == b' ' {
        None
    } else {
        Some(rows_in(code, character))
    }
}

// Walks all ways of an explanation of a wheel with this hub, whose first line tells the place so.
fn walk_text(
    ground: &Ground,
    text: &str,
    place: &str,
    hub: &str,
    wheel: u8,
    character: u8,
) -> Result<u32, &'static str> {
    if !is_told(line_numbered(text, 1), place, character) {
        return Err("another wheel, or another character, is explained");
    }
    let Some(cycle) = line_numbered(text, 2).strip_prefix("cycle ") else {
        return Err("no cycle is told");
    };
    let rows = rows_of(ground.code, character);
    let ways = walk_ways(
        &Wheel {
            ground,
            cycle,
            hub,
            rows,
        },
        text,
    )?;
    if !are_all(ground, rows, ways, wheel) {
        return Err(
            "the rows are not those of the character, or the wheel received rows and is blank",
        );
    }
    Ok(ways)
}

/// Walks all ways of an explanation of a wheel of a line of a page, which must tell this character, and answers how many ways there
/// are. The rows must be those of the character; a blank has none, or a zero or a symbol that zero control can have blanked.
pub fn walk(
    alloc: Global,
    ground: &Ground,
    text: &str,
    page: u64,
    line: u32,
    wheel: u8,
    character: u8,
) -> Result<u32> {
    let place = format!(in alloc; "page {page} line {line} wheel {wheel} prints ")?;
    let hub = format!(in alloc; "W.{wheel}")?;
    match walk_text(ground, text, place.as_str(), hub.as_str(), wheel, character) {
        Ok(ways) => Ok(ways),
        Err(fault) => bail!("{fault}"),
    }
}
