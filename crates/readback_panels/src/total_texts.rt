//! The texts on total lines, by the storage units that keep them.

use crate::hub_rows::{HubRow, lowest_entry, lowest_exit};
use chart_lines::charts::ControlLevel;
use hubs::Hub;
use hubs::setups::Setup;
use std::alloc::{AllocError, Global};

/// A text on a total line.
#[derive(Clone, Copy)]
pub(crate) struct TotalText {
    /// The level of the line.
    pub(crate) level: ControlLevel,
    /// Its first column.
    pub(crate) first: u8,
    /// Its last column.
    pub(crate) last: u8,
    /// Its first wheel.
    pub(crate) wheel: u8,
    /// Its last wheel.
    pub(crate) last_wheel: u8,
}

impl TotalText {
    // Whether it comes before another: by its level, the highest first, then by its columns and its wheel.
    fn is_before(self, other: TotalText) -> bool {
        let level = self.level.number();
        let other_level = other.level.number();
        level > other_level
            || (level == other_level && self.first < other.first)
            || (level == other_level && self.first == other.first && self.last < other.last)
            || (level == other_level
                && self.first == other.first
                && self.last == other.last
                && self.wheel < other.wheel)
    }
}

// Whether a column enters a storage unit at a place behind the first, and leads on to a wheel from there.
fn keeps(setup: &Setup, unit: u8, place: u8, column: u8, wheel: u8) -> bool {
    setup.has(Hub::SR(column), Hub::SE(unit, place))
        && setup.has(Hub::SX(unit, place), Hub::W(wheel))
}

// The text that a storage unit keeps for a total line, if it does.
fn text_of(setup: &Setup, unit: u8) -> Option<TotalText> {
    let number = lowest_exit(setup, HubRow::Printing, Hub::SO(unit))?;
    let level = ControlLevel::with_number(u16::from(number))?;
    let first = lowest_exit(setup, HubRow::Second, Hub::SE(unit, 1))?;
    let wheel = lowest_entry(setup, Hub::SX(unit, 1), HubRow::Wheels)?;
    let mut text = TotalText {
        level,
        first,
        last: first,
        wheel,
        last_wheel: wheel,
    };
    for place in 1..16 {
        let column = first.saturating_add(place);
        let next = wheel.saturating_add(place);
        if !keeps(setup, unit, place + 1, column, next) {
            return Some(text);
        }
        text.last = column;
        text.last_wheel = next;
    }
    Some(text)
}

// Puts a text into a list, before the first that it comes before.
fn insert(texts: &mut Vec<TotalText>, text: TotalText) -> Result<(), AllocError> {
    let mut carried = text;
    for place in 0..texts.len() {
        let other = texts[place];
        if carried.is_before(other) {
            texts[place] = carried;
            carried = other;
        }
    }
    texts.push(carried)?;
    Ok(())
}

/// The texts on total lines: by level, the highest first, then by columns and wheel.
pub(crate) fn total_texts(alloc: Global, setup: &Setup) -> Result<Vec<TotalText>, AllocError> {
    let mut texts = Vec::new(alloc);
    for unit in 1..5 {
        if let Some(text) = text_of(setup, unit) {
            insert(&mut texts, text)?;
        }
    }
    Ok(texts)
}
