//! Literals: the characters that emitters send to wheels.

ghost use Rattle.std.specs.Prelude.{◌≡◌, OnOk};
ghost use Rattle.readback_panels.specs.Items.{Gains, IsLiteral};

use crate::draft::{Draft, Item, PRINTED_LINES, PrintedLine, Said};
use card_code::{Column, ROWS};
use hubs::setups::Setup;
use hubs::{Hub, Jack};
use std::alloc::{AllocError, Global};

// The character that the rows of an emitter make on a wheel; a blank, where they make none.
fn character_on(setup: &Setup, emitter: u8, wheel: u8) -> u8 {
    let mut column = Column::blank();
    for row in ROWS {
        if setup.has(Hub::EM(emitter, row.number()), Hub::W(wheel)) {
            column = column.with_row(row);
        }
    }
    column.print_character()
}

// Whether a literal of a line may stand on a wheel: no other item of the line does, and, below the headings, no amount of any line.
fn is_free(draft: &Draft, line: PrintedLine, wheel: u8) -> bool {
    match line {
        PrintedLine::Heading(_) => true,
        PrintedLine::Body(_) => !draft.is_taken(line, wheel) && !draft.has_amount(wheel),
    }
}

// A literal that is being read, from its first character on.
#[derive(Drop)]
struct Run {
    first: u8,
    last: u8,
    // How many free wheels without a character follow.
    blanks: u8,
    characters: String,
}

impl Run {
    // A run of one character.
    fn of_one(alloc: Global, wheel: u8, character: u8) -> Result<Run, AllocError> {
        let mut characters = String::new(alloc);
        characters.push(char::from(character))?;
        Ok(Run {
            first: wheel,
            last: wheel,
            blanks: 0,
            characters,
        })
    }

    // Adds the blanks that follow, and a character behind them.
    fn add(&mut self, wheel: u8, character: u8) -> Result<(), AllocError> {
        for _ in 0..self.blanks {
            self.characters.push(' ')?;
        }
        self.characters.push(char::from(character))?;
        self.blanks = 0;
        self.last = wheel;
        Ok(())
    }
}

// Puts the literal of a run on its line.
fn put_run(draft: &mut Draft, line: PrintedLine, run: Option<Run>) -> Result<(), AllocError>
    ensures gained { OnOk result (Gains IsLiteral draft.old draft.new) }
    ensures fields { draft.new.fields ≡ draft.old.fields }
{
    let Some(run) = run else {
        return Ok(());
    };
    draft.put(Item {
        line,
        first: run.first,
        last: run.last,
        said: Said::Literal {
            characters: run.characters,
        },
    })
}

// The run with the character of a free wheel: a run that has at most so many blanks behind it goes on, and any other ends.
fn run_with(
    alloc: Global,
    draft: &mut Draft,
    line: PrintedLine,
    run: Option<Run>,
    most_blanks: u8,
    wheel: u8,
    character: u8,
) -> Result<Option<Run>, AllocError>
    ensures gained { OnOk result (Gains IsLiteral draft.old draft.new) }
    ensures fields { draft.new.fields ≡ draft.old.fields }
{
    match run {
        Some(mut before) if before.blanks <= most_blanks => {
            before.add(wheel, character)?;
            Ok(Some(before))
        }
        ended => {
            put_run(draft, line, ended)?;
            Ok(Some(Run::of_one(alloc, wheel, character)?))
        }
    }
}

// The run with a free wheel on which no character stands.
fn run_with_blank(run: Option<Run>) -> Option<Run> {
    let mut before = run?;
    before.blanks = before.blanks.saturating_add(1);
    Some(before)
}

// The run behind a wheel: a wheel on which no literal may stand ends it, and it is put on its line.
fn run_behind(
    alloc: Global,
    setup: &Setup,
    draft: &mut Draft,
    line: PrintedLine,
    run: Option<Run>,
    most_blanks: u8,
    wheel: u8,
) -> Result<Option<Run>, AllocError>
    ensures gained { OnOk result (Gains IsLiteral draft.old draft.new) }
    ensures fields { draft.new.fields ≡ draft.old.fields }
{
    if !is_free(draft, line, wheel) {
        put_run(draft, line, run)?;
        return Ok(None);
    }
    match character_on(setup, line.emitter(), wheel) {
        b' ' => Ok(run_with_blank(run)),
        character => run_with(alloc, draft, line, run, most_blanks, wheel, character),
    }
}

// Puts the literals of a line.
fn put_literals_on(
    alloc: Global,
    setup: &Setup,
    draft: &mut Draft,
    line: PrintedLine,
    most_blanks: u8,
) -> Result<(), AllocError>
    ensures gained { OnOk result (Gains IsLiteral draft.old draft.new) }
    ensures fields { draft.new.fields ≡ draft.old.fields }
{
    let mut run = None;
    for wheel in 1..121 {
        run = run_behind(alloc, setup, draft, line, run, most_blanks, wheel)?;
    }
    put_run(draft, line, run)
}

/// Puts the literals of all lines, in which at most so many blanks stand side by side. The line of a card has some only if it is printed.
pub(crate) fn put_literals(
    alloc: Global,
    setup: &Setup,
    draft: &mut Draft,
    most_blanks: u8,
) -> Result<(), AllocError>
    ensures gained { OnOk result (Gains IsLiteral draft.old draft.new) }
    ensures fields { draft.new.fields ≡ draft.old.fields }
{
    for line in PRINTED_LINES {
        if line.emitter() != 4 || setup.has_jack(Jack::List) {
            put_literals_on(alloc, setup, draft, line, most_blanks)?;
        }
    }
    Ok(())
}
