//! The columns that a panel compares, and how they divide into control fields.
//!
//! A text on a total line asks for a control field of exactly its columns, of its level or a higher one; texts of one level ask for two,
//! texts of two levels may share one. All ways in which the texts may take columns are tried, until one serves all of them: no rule that
//! chooses a level at once is right. What is left then divides into runs.

use crate::hub_rows::{HubRow, lowest_entry};
use crate::total_texts::TotalText;
use chart_lines::charts::ControlLevel;
use hubs::Hub;
use hubs::setups::Setup;
use std::alloc::{AllocError, Global};

/// A column that is compared for a level.
#[derive(Clone, Copy, PartialEq, Eq)]
pub(crate) struct Compared {
    /// The level.
    pub(crate) level: ControlLevel,
    /// The column.
    pub(crate) column: u8,
}

/// The columns of a control field.
#[derive(Clone, Copy)]
pub(crate) struct Interval {
    /// The level that it controls.
    pub(crate) level: ControlLevel,
    /// Its first column.
    pub(crate) first: u8,
    /// Its last column.
    pub(crate) last: u8,
}

/// Control fields, and what serves which text.
#[derive(Drop)]
pub(crate) struct Division {
    // What is compared and in no control field yet.
    left: Vec<Compared>,
    /// The control fields.
    pub(crate) intervals: Vec<Interval>,
    /// For each text the place of the control field that serves it, in the order of the texts; for the last ones maybe none.
    pub(crate) serving: Vec<usize>,
}

// The column that a position compares, and the level that it starts.
fn compared_at(setup: &Setup, position: u8) -> Option<Compared> {
    let number = lowest_entry(setup, Hub::CX(position), HubRow::Starts)?;
    let level = ControlLevel::with_number(u16::from(number))?;
    for place in 0..80 {
        let column = place + 1;
        if setup.has(Hub::FR(column), Hub::CA(position))
            && setup.has(Hub::SR(column), Hub::CB(position))
        {
            return Some(Compared { level, column });
        }
    }
    None
}

/// The columns that a setup compares, each as often as it does.
pub(crate) fn compared_of(alloc: Global, setup: &Setup) -> Result<Vec<Compared>, AllocError> {
    let mut compared = Vec::new(alloc);
    for position in 1..31 {
        if let Some(its) = compared_at(setup, position) {
            compared.push(its)?;
        }
    }
    Ok(compared)
}

// Takes a column out of a list, and answers whether it was there.
fn take(left: &mut Vec<Compared>, wanted: Compared) -> bool {
    for place in 0..left.len() {
        if left[place] == wanted {
            left.remove(place);
            return true;
        }
    }
    false
}

// Takes the columns of an interval out of a list, and answers whether all were there.
fn take_all(left: &mut Vec<Compared>, interval: Interval) -> bool {
    for column in interval.first..=interval.last {
        let wanted = Compared {
            level: interval.level,
            column,
        };
        if !take(left, wanted) {
            return false;
        }
    }
    true
}

impl Division {
    // Nothing is divided yet.
    fn of(alloc: Global, compared: &[Compared]) -> Result<Division, AllocError> {
        let mut left = Vec::new(alloc);
        left.extend_from_slice(compared)?;
        Ok(Division {
            left,
            intervals: Vec::new(alloc),
            serving: Vec::new(alloc),
        })
    }

    // Whether a control field serves a text of a level.
    fn serves_at(&self, texts: &[TotalText], interval: usize, level: ControlLevel) -> bool {
        texts.iter().zip(&self.serving).any(|(text, serving)| *serving == interval
            && text.level == level)
    }

    // The control field that is there and can serve a text.
    fn shared(&self, texts: &[TotalText], text: TotalText) -> Option<usize> {
        for (place, interval) in self.intervals.iter().enumerate() {
            if interval.first == text.first
                && interval.last == text.last
                && interval.level.number() >= text.level.number()
                && !self.serves_at(texts, place, text.level)
            {
                return Some(place);
            }
        }
        None
    }

    // Makes a control field of a level for a text, and answers whether all its columns were there.
    fn make(&mut self, level: ControlLevel, text: TotalText) -> Result<bool, AllocError> {
        let interval = Interval {
            level,
            first: text.first,
            last: text.last,
        };
        let place = self.intervals.len();
        self.intervals.push(interval)?;
        self.serving.push(place)?;
        Ok(take_all(&mut self.left, interval))
    }

    // Serves a text, by a control field that is there, else by one of a level, and answers whether it could.
    fn serve(
        &mut self,
        texts: &[TotalText],
        text: TotalText,
        level: ControlLevel,
    ) -> Result<bool, AllocError> {
        match self.shared(texts, text) {
            Some(place) => {
                self.serving.push(place)?;
                Ok(true)
            }
            None if level.number() < text.level.number() => Ok(false),
            None => self.make(level, text),
        }
    }

    // Makes a control field of each run of columns of a level that are left, each column once.
    fn take_runs(&mut self, level: ControlLevel) -> Result<(), AllocError> {
        let mut run: Option<Interval> = None;
        for column in 1..81 {
            let is_there = take(&mut self.left, Compared { level, column });
            match run {
                Some(before) if is_there => {
                    run = Some(Interval {
                        last: column,
                        ..before
                    });
                }
                Some(before) => {
                    self.intervals.push(before)?;
                    run = None;
                }
                None if is_there => {
                    run = Some(Interval {
                        level,
                        first: column,
                        last: column,
                    });
                }
                None => {}
            }
        }
        if let Some(before) = run {
            self.intervals.push(before)?;
        }
        Ok(())
    }

    // Makes control fields of all that is left. No column is compared more than 30 times.
    fn take_rest(&mut self) -> Result<(), AllocError> {
        for _ in 0..30 {
            if self.left.is_empty() {
                return Ok(());
            }
            for level in LEVELS {
                self.take_runs(level)?;
            }
        }
        Ok(())
    }
}

// The levels of control fields, the lowest first.
const LEVELS: [ControlLevel; 3] = [
    ControlLevel::Minor,
    ControlLevel::Intermediate,
    ControlLevel::Major,
];

// The level that a way chooses for the text at a place. The ways are numbered from 0 to 80 so that the first text keeps its level longest.
fn chosen_level(way: u8, place: usize) -> ControlLevel {
    let choice = match place {
        0 => way / 27,
        1 => way / 9 % 3,
        2 => way / 3 % 3,
        _ => way % 3,
    };
    match choice {
        0 => ControlLevel::Minor,
        1 => ControlLevel::Intermediate,
        _ => ControlLevel::Major,
    }
}

// Divides what is compared in one way; none where that doesn't serve all texts.
fn divided_in(
    alloc: Global,
    compared: &[Compared],
    texts: &[TotalText],
    way: u8,
) -> Result<Option<Division>, AllocError> {
    let mut division = Division::of(alloc, compared)?;
    for (place, text) in texts.iter().enumerate() {
        if !division.serve(texts, *text, chosen_level(way, place))? {
            return Ok(None);
        }
    }
    Ok(Some(division))
}

/// Divides what a panel compares into control fields that serve the texts on its total lines; where no way serves all of them, they are left
/// without.
pub(crate) fn divided(
    alloc: Global,
    compared: &[Compared],
    texts: &[TotalText],
) -> Result<Division, AllocError> {
    for way in 0..81 {
        if let Some(found) = divided_in(alloc, compared, texts, way)? {
            let mut division = found;
            division.take_rest()?;
            return Ok(division);
        }
    }
    let mut division = Division::of(alloc, compared)?;
    division.take_rest()?;
    Ok(division)
}
