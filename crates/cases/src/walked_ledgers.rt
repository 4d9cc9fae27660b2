//! Walks the ledgers of figures, by texts alone, down to the holes of the cards.

use crate::answered::Served;
use crate::walked_texts::{
    character_at, has_word, line_numbered, number_of, rows_in, word_numbered,
};
use crate::walked_ways::Ground;
use anyhow::{Result, bail};
use cli_tasks::Task;
use std::alloc::Global;

/// What was walked: figures that have a ledger, entries of ledgers, and holes of cards that made them.
#[derive(Clone, Copy)]
pub struct Sums {
    pub figures: u32,
    pub entries: u32,
    pub holes: u32,
}

impl Sums {
    /// Nothing was walked.
    pub fn none() -> Sums {
        Sums {
            figures: 0,
            entries: 0,
            holes: 0,
        }
    }
}

// A signed amount without its point.
#[derive(Clone, Copy, PartialEq, Eq)]
struct Amount {
    digits: u64,
    is_minus: bool,
}

/// The digits of a text, taken together; other characters are passed over.
pub fn digits_of(text: &str) -> u64 {
    let mut number = 0u64;
    for byte in text.as_bytes() {
        if byte.is_ascii_digit() {
            number = number
                .saturating_mul(10)
                .saturating_add(u64::from(byte.saturating_sub(b'0')));
        }
    }
    number
}

// An amount as a ledger writes it.
fn amount_of(text: &str) -> Amount {
    Amount {
        digits: digits_of(text),
        is_minus: text.starts_with('-'),
    }
}

// The FIELD line of a chart that has a name; an empty one if there is none.
fn field_named<'a>(chart: &'a str, name: &str) -> &'a str {
    for line in chart.lines() {
        if word_numbered(line, 1) == "FIELD" && word_numbered(line, 2) == name {
            return line;
        }
    }
    ""
}

// The row of a digit among the rows of a character; none for a blank.
fn digit_in(rows: &str) -> Option<u64> {
    for row in rows.split(' ') {
        if row.len() == 1 {
            return Some(digits_of(row));
        }
    }
    None
}

// Whether a card has a hole in row 11 of a column.
fn has_eleven(ground: &Ground, card: &str, column: u32) -> bool {
    has_word(rows_in(ground.code, character_at(card, column)), "11")
}

// Whether the amount of a field is minus on a card: by the word behind the decimals, and the column behind that.
fn is_minus(ground: &Ground, field: &str, card: &str) -> bool {
    let column = number_of(word_numbered(field, 8));
    match word_numbered(field, 7) {
        "X" => has_eleven(ground, card, column),
        "NX" => !has_eleven(ground, card, column),
        _ => false,
    }
}

// The amount that the holes of a card's columns are, and how many holes these are.
fn punched_amount(ground: &Ground, field: &str, card: &str) -> (Amount, u32) {
    let mut digits = 0u64;
    let mut holes = 0u32;
    let last = number_of(word_numbered(field, 5));
    for column in number_of(word_numbered(field, 4))..last.saturating_add(1) {
        digits = digits.saturating_mul(10);
        if let Some(digit) = digit_in(rows_in(ground.code, character_at(card, column))) {
            digits = digits.saturating_add(digit);
            holes = holes.saturating_add(1);
        }
    }
    let is_minus = is_minus(ground, field, card);
    (Amount { digits, is_minus }, holes)
}

// What an entry of a ledger says.
#[derive(Clone, Copy)]
struct Entry<'a> {
    before: &'a str,
    // What came in, with its sign, or the word `turned`.
    change: &'a str,
    has_carry: bool,
    after: &'a str,
    // The amount in the chart's words, and whose it is; both empty for a number that is turned.
    amount: &'a str,
    title: &'a str,
}

impl Entry<'_> {
    // Reads what stands behind the name of the cycle.
    fn read(told: &str) -> Option<Entry<'_>> {
        let (sum, words) = told.split_once("   ").unwrap_or((told, ""));
        let (amount, title) = words.split_once("   ").unwrap_or(("", ""));
        let (left, after) = sum.split_once(" = ")?;
        Some(Entry {
            before: word_numbered(left, 1),
            change: word_numbered(left, 2),
            has_carry: has_word(left, "carry"),
            after,
            amount,
            title,
        })
    }

    // Whether the number after follows, on as many wheels as the number has digits.
    fn follows(&self) -> bool {
        let nines = nines_as_long_as(self.before);
        let before = digits_of(self.before);
        if self.change == "turned" {
            return digits_of(self.after) == nines.saturating_sub(before);
        }
        let entered = digits_of(self.change);
        let added = match self.change.starts_with('-') {
            true => nines.saturating_sub(entered),
            false => entered,
        };
        let carry = u64::from(self.has_carry);
        let sum = before.saturating_add(added).saturating_add(carry);
        digits_of(self.after) == remainder(sum, nines)
    }
}

// As many nines as a text has characters.
fn nines_as_long_as(text: &str) -> u64 {
    let mut nines = 0u64;
    for _digit in text.as_bytes() {
        nines = nines.saturating_mul(10).saturating_add(9);
    }
    nines
}

// What wheels of so many nines show of a sum of two numbers that they can show, and a carry.
fn remainder(sum: u64, nines: u64) -> u64 {
    if sum > nines {
        sum.saturating_sub(nines).saturating_sub(1)
    } else {
        sum
    }
}

// What has come to a figure so far.
#[derive(Clone, Copy)]
struct Balance<'a> {
    number: &'a str,
    plus: u64,
    minus: u64,
    is_turned: bool,
}

impl<'a> Balance<'a> {
    // Takes an entry, and answers how many holes of cards were looked at.
    fn take(&mut self, ground: &Ground, entry: &Entry<'a>) -> Result<u32> {
        let begins = if self.number == "" {
            digits_of(entry.before) == 0
        } else {
            self.number == entry.before
        };
        if !begins || !entry.follows() {
            bail!("a number of a ledger doesn't follow");
        }
        self.number = entry.after;
        if entry.change == "turned" {
            self.is_turned = true;
            return Ok(0);
        }
        self.add(amount_of(entry.amount));
        if amount_of(entry.amount).digits != digits_of(entry.change) {
            bail!("an amount of a ledger isn't what came in");
        }
        holes_behind(ground, entry)
    }

    fn add(&mut self, amount: Amount) {
        if amount.is_minus {
            self.minus = self.minus.saturating_add(amount.digits);
        } else {
            self.plus = self.plus.saturating_add(amount.digits);
        }
    }

    // Whether this is what a figure shows: without its sign, and turned if it is below zero.
    fn is_shown_as(&self, figure: u64) -> bool {
        let is_below = self.minus > self.plus;
        let shown = if is_below {
            self.minus.saturating_sub(self.plus)
        } else {
            self.plus.saturating_sub(self.minus)
        };
        shown == figure && digits_of(self.number) == figure && (self.is_turned || !is_below)
    }
}

// The holes of the card that an entry names, which must be its amount; none for a lower total.
fn holes_behind(ground: &Ground, entry: &Entry) -> Result<u32> {
    let Some((name, card)) = entry.title.split_once(" of card ") else {
        if entry.title.starts_with("total of level ") {
            return Ok(0);
        }
        bail!("an entry of a ledger names neither a card nor a total");
    };
    let field = field_named(ground.chart, name);
    let (amount, holes) = punched_amount(
        ground,
        field,
        line_numbered(ground.deck, number_of(card)),
    );
    if amount != amount_of(entry.amount) {
        bail!("the holes of a card aren't the amount that a ledger tells");
    }
    Ok(holes)
}

// The figure whose last digit stands on a wheel, without its point; none if the wheel has no digit, or the figure goes on.
fn figure_ending_at(line: &str, wheel: u32) -> Option<u64> {
    let mut figure = None;
    let mut place = 0u32;
    for byte in line.as_bytes() {
        let is_part = byte.is_ascii_digit() || *byte == b'.' || *byte == b',';
        if place == wheel {
            return if is_part { None } else { figure };
        }
        place = place.saturating_add(1);
        figure = match figure {
            Some(number) if is_part => Some(with_digit(number, *byte)),
            None if is_part => Some(with_digit(0, *byte)),
            _ => None,
        };
    }
    if place == wheel { figure } else { None }
}

// A number with one more digit; as it is if the character is a point.
fn with_digit(number: u64, character: u8) -> u64 {
    if character.is_ascii_digit() {
        number
            .saturating_mul(10)
            .saturating_add(u64::from(character.saturating_sub(b'0')))
    } else {
        number
    }
}

/// Walks the ledger of the figure whose last digit stands on a wheel of a line: the numbers follow from one another, each amount of a card is
/// that of its holes, the amounts come to the figure, and the figure is the one on the line.
pub fn walk_ledger(ground: &Ground, ledger: &str, figure: u64, sums: &mut Sums) -> Result<()> {
    let mut balance = Balance {
        number: "",
        plus: 0,
        minus: 0,
        is_turned: false,
    };
    for line in ledger.lines() {
        if let Some(told) = line.strip_prefix("  ") {
            let Some((_, told)) = told.split_once(": ") else {
                bail!("a line of a ledger names no cycle");
            };
            let Some(entry) = Entry::read(told) else {
                bail!("a line of a ledger tells no number");
            };
            sums.entries = sums.entries.saturating_add(1);
            sums.holes = sums.holes.saturating_add(balance.take(ground, &entry)?);
        } else if let Some(printed) = line.strip_prefix("printed ") {
            if digits_of(printed) != figure {
                bail!("a ledger tells another figure than the line has");
            }
        }
    }
    if !balance.is_shown_as(figure) {
        bail!("a ledger doesn't come to its figure");
    }
    sums.figures = sums.figures.saturating_add(1);
    Ok(())
}

/// Walks the ledger of each figure of some pages that has one. A form feed ends each page, a line feed each line.
pub fn walk_ledgers(alloc: Global, ground: &Ground, pages: &str) -> Result<Sums> {
    let mut sums = Sums::none();
    let mut page = 0u64;
    for text in pages.split('\u{c}') {
        page = page.saturating_add(1);
        let mut line = 0u32;
        for printed in text.lines() {
            line = line.saturating_add(1);
            for wheel in 1..121u32 {
                if let Some(figure) = figure_ending_at(printed, wheel) {
                    let task = Task::Ledger {
                        page,
                        line,
                        wheel,
                        all: true,
                    };
                    walk_figure(alloc, ground, task, figure, &mut sums)?;
                }
            }
        }
    }
    Ok(sums)
}

// Walks the ledger of a figure, which a task tells, if it has one: a figure that is no sum has none.
fn walk_figure(
    alloc: Global,
    ground: &Ground,
    task: Task,
    figure: u64,
    sums: &mut Sums,
) -> Result<()> {
    let chart = ground.chart.as_bytes();
    let served = Served::of(alloc, task, chart, ground.deck.as_bytes());
    let ledger = String::from_utf8(served.output)?;
    if ledger.starts_with("ledger of ") {
        return walk_ledger(ground, ledger.as_str(), figure, sums);
    }
    if !ledger.starts_with("no ledger: ") {
        bail!("a ledger was refused");
    }
    Ok(())
}
