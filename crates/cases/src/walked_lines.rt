//! Who asks for the wires of a way.

use crate::walked_texts::{is_asked, line_numbered, number_of};
use crate::walked_ways::{Ground, first_hub, last_hub};

/// What a note that tells who asks for wires begins with.
const NOTE: &str = "  wires: ";

// The words and the number of the chart's line that a note names.
fn line_of_note(note: &str) -> Option<(&str, &str)> {
    let Some(words) = note.strip_prefix(NOTE) else {
        return None;
    };
    let Some((words, behind)) = words.split_once(" (line ") else {
        return None;
    };
    let Some((number, _)) = behind.split_once(' ') else {
        return None;
    };
    Some((words, number))
}

// Whether a note names a line that asks for a wire.
fn asks(ground: &Ground, note: &str, from: &str, to: &str) -> bool {
    match line_of_note(note) {
        Some((_, number)) => is_asked(ground.legend, number, from, to),
        None => false,
    }
}

/// Whether by the legend one of the lines that the notes name asks for a wire.
pub fn is_asked_by_some(ground: &Ground, notes: &str, from: &str, to: &str) -> bool {
    for note in notes.lines() {
        if asks(ground, note, from, to) {
            return true;
        }
    }
    false
}

// Whether the line with a number asks for some wire of a way.
fn asks_for_some(ground: &Ground, way: &str, number: &str) -> bool {
    let mut from = "";
    for hubs in way.split(" -> ") {
        if from != "" && is_asked(ground.legend, number, from, first_hub(hubs)) {
            return true;
        }
        from = last_hub(hubs);
    }
    false
}

// Whether a note names a line by its words, and that asks for some wire of a way.
fn is_right(ground: &Ground, way: &str, note: &str) -> bool {
    match line_of_note(note) {
        Some((words, number)) => {
            line_numbered(ground.chart, number_of(number)) == words
                && asks_for_some(ground, way, number)
        }
        None => false,
    }
}

/// Whether the notes that tell who asks for wires name lines by their words, and each of these asks for some wire of a way. Where there
/// is no legend, none is to be named.
pub fn are_right(ground: &Ground, way: &str, notes: &str) -> bool {
    for note in notes.lines() {
        if note.starts_with(NOTE) && !is_right(ground, way, note) {
            return false;
        }
    }
    true
}
