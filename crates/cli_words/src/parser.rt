//! The words that the program takes.

use clap::builder::ValueParser;
use clap::{Arg, ArgAction, Command, value_parser};
use std::alloc::{AllocError, Global};

/// What stands behind the commands of the program's help.
const AFTER_HELP: &str =
    "Status: 0 done, 2 words that can't be obeyed, 3 a refused text, a card, page, line or wheel that isn't there, or a panel that isn't wired for its chart, 4 a file that can't be read or an output that can't be written, 5 no memory. Why is told on one line of standard error. A file that is read may be -, standard input; one of them at most.\n\nDocuments, in the folder docs: CHART.md the planning chart, DECKS.md decks, REPORT.md what a report is, GALLERY.md whole charts with their pages, WIRING.md wiring charts, MACHINE.md the machine, EXPLAIN.md explanations, SHOW.md the page for a browser, FAULTS.md every fault.";

/// How large a number may be: as large as the type has it.
#[derive(Clone, Copy)]
pub(crate) enum Size {
    U8,
    U32,
    U64,
}

/// What a word of a command is, or a word with the one after it.
#[derive(Clone, Copy)]
pub(crate) enum Kind {
    /// A file that is read, which has to be named.
    File,
    /// Files that are read, of which the first has to be named.
    Files,
    /// A file that is read, which may be left out.
    Extra,
    /// A file that is read, behind a word of two hyphens, which may be left out.
    Option {
        long: &'static str,
        value: &'static str,
    },
    /// A number, which has to be named.
    Number {
        size: Size,
    },
    /// A number, which may be left out.
    ExtraNumber {
        size: Size,
    },
    /// Anything but a file that is read, behind a word of two hyphens, which may be left out.
    Value {
        long: &'static str,
        value: &'static str,
    },
    /// A word of two hyphens alone, which may be left out.
    Flag {
        long: &'static str,
    },
}

/// A word of a command. A file that is read may be `-`, which is standard input.
#[derive(Clone, Copy)]
pub(crate) struct Word {
    pub name: &'static str,
    kind: Kind,
    help: &'static str,
}

impl Word {
    /// Whether it names files which are read.
    pub(crate) fn is_input(&self) -> bool {
        matches!(
            self.kind,
            Kind::File | Kind::Files | Kind::Extra | Kind::Option { .. }
        )
    }
}

/// A command with its words in their order.
#[derive(Clone, Copy)]
pub(crate) struct CommandRow {
    pub name: &'static str,
    about: &'static str,
    pub words: &'static [Word],
}

const CHART: Word = Word {
    name: "CHART",
    kind: Kind::File,
    help: "the planning chart, a file",
};

const DECK: Word = Word {
    name: "DECK",
    kind: Kind::File,
    help: "the deck of cards, a file",
};

const DECKS: Word = Word {
    name: "DECK",
    kind: Kind::Files,
    help: "the deck of cards, a file; several are run one behind the other",
};

const DECK_TOO: Word = Word {
    name: "DECK",
    kind: Kind::Extra,
    help: "a deck of cards, a file; its bad cards are listed",
};

const WIRING: Word = Word {
    name: "WIRING",
    kind: Kind::File,
    help: "the wiring chart, a file",
};

const TEXT: Word = Word {
    name: "TEXT",
    kind: Kind::File,
    help: "the planning chart, or a wiring chart, a file",
};

const ORDERS: Word = Word {
    name: "ORDERS",
    kind: Kind::Option {
        long: "orders",
        value: "FILE",
    },
    help: "a file with the orders in which the units run; also tells how many rounds it took",
};

const DECK_ON_BOTH: Word = Word {
    name: "DECK",
    kind: Kind::Option {
        long: "deck",
        value: "DECK",
    },
    help: "a deck of cards, a file; shows the first line that the panel prints differently",
};

const HINT: Word = Word {
    name: "HINT",
    kind: Kind::Flag { long: "hint" },
    help: "tells lines, counts and too narrow groups, and no wire",
};

const OUTPUT: Word = Word {
    name: "OUTPUT",
    kind: Kind::Value {
        long: "output",
        value: "FILE",
    },
    help: "writes this file instead of standard output; a file appears, or is replaced, only when it is complete",
};

const PAGES: Word = Word {
    name: "PAGES",
    kind: Kind::Value {
        long: "page",
        value: "N",
    },
    help: "prints only page N, or pages N to M (as 3-5), once the whole deck has run",
};

const AROUND: Word = Word {
    name: "AROUND",
    kind: Kind::Value {
        long: "page",
        value: "N",
    },
    help: "shows page N and the pages next to it, with the cards and cycles of their lines",
};

const CHECK_FIRST: Word = Word {
    name: "CHECK_FIRST",
    kind: Kind::Flag {
        long: "check-first",
    },
    help: "prints nothing if a card of the deck is refused",
};

const PLAIN_TEXT: Word = Word {
    name: "TEXT",
    kind: Kind::File,
    help: "a text, a file",
};

const WITH: Word = Word {
    name: "WITH",
    kind: Kind::Value {
        long: "with",
        value: "C",
    },
    help: "the character for a byte that no card has; a blank if it is left out",
};

const PAGE: Word = Word {
    name: "PAGE",
    kind: Kind::Number { size: Size::U64 },
    help: "the page, from 1",
};

const LINE: Word = Word {
    name: "LINE",
    kind: Kind::Number { size: Size::U32 },
    help: "the line of the page, from 1",
};

const WHEEL: Word = Word {
    name: "WHEEL",
    kind: Kind::Number { size: Size::U32 },
    help: "the wheel, 1 to 120",
};

const CARD: Word = Word {
    name: "CARD",
    kind: Kind::ExtraNumber { size: Size::U32 },
    help: "the number of a card, from 1; the first card, if it is left out",
};

const FAULT: Word = Word {
    name: "NN",
    kind: Kind::Number { size: Size::U8 },
    help: "the number of the fault, as its line tells it",
};

const WHOLE: Word = Word {
    name: "WHOLE",
    kind: Kind::Flag { long: "whole" },
    help: "tells sums down to the holes of cards",
};

const ALL: Word = Word {
    name: "ALL",
    kind: Kind::Flag { long: "all" },
    help: "tells all entries of a long ledger, and not only 20 at each end",
};

const ALL_FAULTS: Word = Word {
    name: "ALL",
    kind: Kind::Flag { long: "all" },
    help: "lists every fault of the chart, or of a wiring chart in its place; if there are none, shows the bad cards of the deck",
};

const GROUPS: Word = Word {
    name: "GROUPS",
    kind: Kind::Flag { long: "groups" },
    help: "lists the control keys that come back, each with its cards; if there are any, the deck isn't sorted",
};

/// The commands in the order of the help.
static COMMANDS: &[CommandRow] = &[
    CommandRow {
        name: "run",
        about: "Prints the pages of a deck",
        words: &[PAGES, CHECK_FIRST, OUTPUT, CHART, DECKS],
    },
    CommandRow {
        name: "check",
        about: "Checks a planning chart, and all cards of a deck",
        words: &[ALL_FAULTS, GROUPS, CHART, DECK_TOO],
    },
    CommandRow {
        name: "layout",
        about: "Prints each line of a planning chart's report under a ruler of the wheels, with its items",
        words: &[CHART],
    },
    CommandRow {
        name: "fields",
        about: "Prints a card under a ruler of the columns, with what the fields of a planning chart read on it",
        words: &[CHART, DECK, CARD],
    },
    CommandRow {
        name: "wire",
        about: "Prints the wiring chart of a planning chart",
        words: &[CHART],
    },
    CommandRow {
        name: "replay",
        about: "Prints the pages of a deck on a wired panel",
        words: &[ORDERS, WIRING, DECK],
    },
    CommandRow {
        name: "upgrade",
        about: "Prints a wiring chart in version 2 of its language",
        words: &[WIRING],
    },
    CommandRow {
        name: "chart",
        about: "Prints the planning chart that a panel is wired for, or a near one",
        words: &[WIRING],
    },
    CommandRow {
        name: "match",
        about: "Tells if a panel is wired for a planning chart, so that it prints the chart's reports",
        words: &[HINT, DECK_ON_BOTH, CHART, WIRING],
    },
    CommandRow {
        name: "legend",
        about: "Prints what each line of a planning chart asks for on the panel",
        words: &[CHART],
    },
    CommandRow {
        name: "explain",
        about: "Prints why a wheel of a printed line printed its character",
        words: &[WHOLE, TEXT, DECK, PAGE, LINE, WHEEL],
    },
    CommandRow {
        name: "ledger",
        about: "Prints the sum behind the figure on a wheel of a printed line, card by card",
        words: &[ALL, TEXT, DECK, PAGE, LINE, WHEEL],
    },
    CommandRow {
        name: "trace",
        about: "Prints what each cycle of a run did, a line for each",
        words: &[TEXT, DECK],
    },
    CommandRow {
        name: "show",
        about: "Prints one page for a browser: the report, its cards and sums, the panel, and how each character came",
        words: &[AROUND, OUTPUT, TEXT, DECK],
    },
    CommandRow {
        name: "fold",
        about: "Prints a text as a deck: capitals for small letters, blanks for tabs and for what no card has",
        words: &[WITH, PLAIN_TEXT],
    },
    CommandRow {
        name: "fault",
        about: "Prints the name of a fault, its cause, its cure and an example",
        words: &[FAULT],
    },
];

/// The commands in the order of the help. The table is named here alone: a proof that names it has all its rows in each goal, and takes 15 s.
pub(crate) fn commands() -> &'static [CommandRow] {
    COMMANDS
}

// What reads a number up to a size.
fn number_parser<'a>(size: Size) -> ValueParser<'a> {
    match size {
        Size::U8 => value_parser!(u8),
        Size::U32 => value_parser!(u32),
        Size::U64 => value_parser!(u64),
    }
}

// A word as the parser takes it.
fn arg_of<'a>(alloc: Global, word: Word) -> Arg<'a> {
    let arg = Arg::new(alloc, word.name).help(word.help);
    match word.kind {
        Kind::File => arg.required(true),
        Kind::Files => arg.required(true).num_args(1..),
        Kind::Extra => arg,
        Kind::Number { size } => arg.required(true).value_parser(number_parser(size)),
        Kind::ExtraNumber { size } => arg.value_parser(number_parser(size)),
        Kind::Option { long, value } | Kind::Value { long, value } => {
            arg.long(long).value_name(value)
        }
        Kind::Flag { long } => arg.long(long).action(ArgAction::SetTrue),
    }
}

// A command as the parser takes it.
fn command_of<'a>(alloc: Global, row: &CommandRow) -> Result<Command<'a>, AllocError> {
    let mut command = Command::new(alloc, row.name).about(row.about);
    for word in row.words {
        command = command.arg(arg_of(alloc, *word))?;
    }
    Ok(command)
}

// The program of this version, without its commands.
fn program<'a>(alloc: Global, version: &'a str) -> Result<Command<'a>, AllocError> {
    Command::new(alloc, "run407")
        .version(version)
        .about(
            "Compiles planning charts and runs decks on a simulated IBM 407. Without a command it reads a chart and then its deck from standard input, and prints the pages.",
        )
        .after_help(AFTER_HELP)
        .bin_name("run407")
}

// A program with commands behind those that it has.
fn with_commands<'a>(
    alloc: Global,
    program: Command<'a>,
    rows: &[CommandRow],
) -> Result<Command<'a>, AllocError> {
    let mut parser = program;
    for row in rows {
        parser = parser.subcommand(command_of(alloc, row)?)?;
    }
    Ok(parser)
}

/// The program of this version with its commands, each with its words.
pub fn parser<'a>(alloc: Global, version: &'a str) -> Result<Command<'a>, AllocError> {
    with_commands(alloc, program(alloc, version)?, commands())
}
