//! The table of faults: what docs/FAULTS.md says of each, without its marks, and an example. `bench/faults-page` compares page and table.

ghost use Rattle.std.specs.Prelude.{◌≡◌, ◌+◌, ◌<◌, ◌≤◌, length};

/// A fault that a fault line names by its number.
#[derive(Clone, Copy, Debug, PartialEq, Eq)]
pub struct FaultEntry {
    /// The number, as the fault line has it.
    pub number: u8,
    /// Its name.
    pub name: &'static str,
    /// What was found.
    pub cause: &'static str,
    /// What helps.
    pub cure: &'static str,
    /// A small input that has the fault, which the page doesn't show; empty if there is none. Its lines stand below one another, indented as far as
    /// the first one is behind the word `example`.
    pub example: &'static str,
}

// What is said of a fault beside its number: its name, cause and cure, as docs/FAULTS.md has them, and an example.
struct Words {
    name: &'static str,
    cause: &'static str,
    cure: &'static str,
    example: &'static str,
}

// The faults of the text of a deck, from 1.
static DECK_TEXTS: [Words; 4] = [
    Words {
        name: "CardTooLong",
        cause: "line K of the deck has more than 80 bytes; an accented letter, or a mark in front of the file (byte order mark), counts as two or three",
        cure: "a card has 80 columns: shorten the line, even if its rest is blank, or look for a missing line end",
        example: "a line of 81 letters",
    },
    Words {
        name: "NoSuchCharacter",
        cause: "the byte at column C of card K is no deck character",
        cure: "decks have capital letters, digits, blanks and & - / . $ * , % # @ !; small letters, tabs and accents have no card code. run407 fold prints a text as a deck, with capitals for small letters and blanks for tabs and for what no card has. Row 11 over 0 is typed !, and a plus of row 12 &; cut off a ctrl-Z behind the last card, and a byte order mark in front of the first",
        example: "bolt",
    },
    Words {
        name: "TooManyCards",
        cause: "the deck has 1,000,000 lines or more",
        cure: "divide the deck; 999,999 cards are the most",
        example: "",
    },
    Words {
        name: "Read",
        cause: "the deck could be opened, and the read that was to bring card K failed; the status is 4",
        cure: "see that the deck is a file and not a folder, and that its disk or pipe works",
        example: "run407 run my.chart .",
    },
];

// The faults of the text of a chart, from 11.
static CHART_TEXTS: [Words; 4] = [
    Words {
        name: "TooLarge",
        cause: "the chart has more than 500 lines, or a line of more than 200 bytes",
        cure: "take out empty lines and spaces; or the files are in the wrong order, or a deck stands behind a chart without END",
        example: "",
    },
    Words {
        name: "NoFirstLine",
        cause: "the first line is neither CHART407 1 nor CHART407 2",
        cure: "put one of them there; no empty line or byte order mark may come before it; or the files are in the wrong order; or this is a wiring chart, as replay, chart and check --all take",
        example: "an empty file",
    },
    Words {
        name: "NotALine",
        cause: "line K has none of the forms of a chart, or stands after END without being empty",
        cure: "compare it with CHART.md: a misspelt or missing word, a comment, a small letter, a tab, a number with a leading zero, a level that there isn't; a name of more than 8 letters and digits, or with other characters; a literal that is empty or not closed, in quotation marks, or with a character that the machine doesn't print; the name before the wheel; digits of a total on a DETAIL line; CR or - without the word MARK, or in apostrophes; in version 1 the word COUPLED",
        example: "DETAIL 1",
    },
    Words {
        name: "NoEnd",
        cause: "no line has END alone",
        cure: "the last line is END",
        example: "",
    },
];

// The rules of names, fields and lines that stand twice, from 21.
static FIELD_RULES: [Words; 6] = [
    Words {
        name: "NameTwice",
        cause: "a second FIELD with the same name",
        cure: "give it another name",
        example: "FIELD A TEXT 1 2\n         FIELD A TEXT 3 4",
    },
    Words {
        name: "Columns",
        cause: "columns that are not 1 to 80 or run backwards, or a sign column that is not 1 to 80",
        cure: "a card has columns 1 to 80, first column first",
        example: "FIELD A TEXT 5 3",
    },
    Words {
        name: "AmountSize",
        cause: "an amount of more than 8 digits, more than 3 decimals, or more decimals than digits",
        cure: "divide a field of more than 8 digits; give fewer decimals",
        example: "FIELD A AMOUNT 1 9 0",
    },
    Words {
        name: "UnknownName",
        cause: "a name without a FIELD line",
        cure: "write the FIELD, or correct the name",
        example: "DETAIL 1 NOSUCH",
    },
    Words {
        name: "WrongKind",
        cause: "an amount in CONTROL, INDICATE or a TOTAL without digits, or a text with MARK or total digits",
        cure: "a total needs its digits; only amounts have marks",
        example: "FIELD A TEXT 1 2\n         DETAIL 1 A MARK CR",
    },
    Words {
        name: "LineTwice",
        cause: "a second PRINT or FORM; a second SPACE or AFTER of one kind of line; a second TAPE of one channel; a CONTROL of the same level and name again; a name twice on the DETAIL lines or on the TOTAL lines of one level",
        cure: "take one of them out",
        example: "PRINT DETAIL\n         PRINT GROUP",
    },
];

// The rules of levels, totals and marks, from 27.
static TOTAL_RULES: [Words; 5] = [
    Words {
        name: "NoControl",
        cause: "a TOTAL or INDICATE of a level 1 to 3 that has no CONTROL line",
        cure: "write CONTROL, the level and its field",
        example: "TOTAL 1 1 'SUM' without a CONTROL 1 line",
    },
    Words {
        name: "TotalTextNotControl",
        cause: "a text on a total line that is no control field of that level or a higher one",
        cure: "make it a control field of that level, or print it on the DETAIL line",
        example: "TOTAL 4 1 DEPT",
    },
    Words {
        name: "DigitsRange",
        cause: "a total in fewer digits than its field has, in more than 16, or in more than 15 with a sign column",
        cure: "choose the digits in that range",
        example: "FIELD A AMOUNT 1 3 0\n         TOTAL 4 1 A 2",
    },
    Words {
        name: "DigitsShrink",
        cause: "a total in fewer digits than the same amount has on a lower level",
        cure: "a higher total needs at least as many",
        example: "TOTAL 1 1 A 5\n         TOTAL 2 10 A 4, with CONTROL lines of both levels",
    },
    Words {
        name: "MarkMismatch",
        cause: "a signed amount without MARK, or an unsigned one with it",
        cure: "every signed amount is printed with a mark",
        example: "FIELD A AMOUNT 1 3 0\n         DETAIL 1 A MARK -",
    },
];

// The rules of wheels, from 32.
static WHEEL_RULES: [Words; 3] = [
    Words {
        name: "WheelRange",
        cause: "an item that does not lie within wheels 1 to 120",
        cure: "move it to the left; wheel 0 is none",
        example: "DETAIL 0 NAME",
    },
    Words {
        name: "WheelOverlap",
        cause: "an item that meets an earlier item of the same printed line",
        cure: "move one of them",
        example: "DETAIL 1 NAME\n         DETAIL 3 ITEM",
    },
    Words {
        name: "WheelClash",
        cause: "an item meets an earlier item of another body line. Only two texts or literals may, or two amounts with the same last wheel, decimals and mark",
        cure: "the later of the two is told, and the earlier may be the one to move. Zero control belongs to the wheels: let amounts end on the same wheel, or keep texts off their wheels",
        example: "DETAIL 40 NAME\n         TOTAL 4 42 AMT 8",
    },
];

// The rules of what is printed, of forms and of coupled counters, from 35.
static FORM_RULES: [Words; 4] = [
    Words {
        name: "PrintKind",
        cause: "no PRINT line (told at END); PRINT DETAIL without a DETAIL item, PRINT GROUP without a TOTAL item; a DETAIL item under PRINT GROUP; SPACE or AFTER for a line without items",
        cure: "write the missing PRINT line or item, or take the line out; DETAIL items need PRINT DETAIL",
        example: "PRINT DETAIL without a DETAIL line",
    },
    Words {
        name: "Form",
        cause: "no FORM line (told at END); a first line of 0; headings that reach the overflow line, or, without headings, a first line that does; an overflow line less than 2 lines above the last; more than 144 lines",
        cure: "see CHART.md, FORM",
        example: "FORM 12 1 11 or, without HEAD lines, FORM 12 9 9",
    },
    Words {
        name: "Tape",
        cause: "a channel that is not 2 to 11; stops that do not rise or leave the form; AFTER with a SKIP to a channel without a TAPE line",
        cure: "write the TAPE line, its stops in rising order",
        example: "AFTER DETAIL SKIP 3 without a TAPE 3 line",
    },
    Words {
        name: "CoupledMark",
        cause: "in version 2, a total of up to 8 positions with the word COUPLED, or of more without it. It needs a position for each digit, and one more with a sign column",
        cure: "write the word where two counter groups are meant, or change the digits",
        example: "TOTAL 4 1 A 8 COUPLED or TOTAL 4 1 A 9",
    },
];

// The faults of the cards of a deck for a chart, from 41.
static CARDS: [Words; 3] = [
    Words {
        name: "NotText",
        cause: "a text field of card K holds a column that is neither a print character nor blank; C is the first column of the field",
        cure: "repunch the card, or let the field end before that column",
        example: "10! where column 3 is a text field",
    },
    Words {
        name: "NotAmount",
        cause: "an amount of card K, the field that begins at column C, is neither blank nor blanks and then digits, has too few digits for its decimals, or has a row 11 or 12 punch where none belongs; row 12 belongs nowhere, not over a digit either (A to I)",
        cure: "repunch the card; look through the whole field: a sign stands in the sign column alone, and a decimal point or a comma is never punched",
        example: "1- in two columns",
    },
    Words {
        name: "DoesNotFit",
        cause: "the total of amount N for the group of level L that ends with card K has more digits than its TOTAL line says. Of several, that of the earliest card is told, then that of the lower level, then that of the earlier line",
        cure: "give the total more digits (16 at most, 15 with a sign column), or divide the group; what the sum was on the way doesn't count; check --all tells how large the total is",
        example: "FIELD A AMOUNT 1 1 0\n         TOTAL 4 1 A 1, over two cards of 5",
    },
];

// The causes for which a line of a wiring chart is refused, from 51.
static UNFIT_LINES: [Words; 4] = [
    Words {
        name: "NotExit",
        cause: "the first hub of a wire is no exit: it is an entry, or one of its numbers is out of range. Of RING, and of the first number of COUPLE: there is no such counter group",
        cure: "write the exit first; a wire leads from an exit to an entry",
        example: "WIRE W.1 SR.1 or WIRE SR.81 W.1 or, in version 2, RING 5.1",
    },
    Words {
        name: "NotEntry",
        cause: "the first hub is an exit and the second is no entry: it is an exit, or one of its numbers is out of range. Of the second number of COUPLE: there is no such counter group of 8 positions",
        cure: "look up the range of its numbers in WIRING.md",
        example: "WIRE SR.1 W.121 or WIRE SR.1 SR.2 or, in version 2, COUPLE 1 9",
    },
    Words {
        name: "CarryRing",
        cause: "a wire from a carry exit leads to no carry entry, or one to a carry entry comes from no carry exit; its two counter groups are different ones and not both of 8 positions; or it and a wire that is there leave one carry exit, enter one carry entry, or join three groups",
        cure: "wire CO to CI of the same group, or CO of one group of 8 positions to CI of another, with the wire back for a ring, and nothing else to either",
        example: "WIRE CO.4.1 CI.4.2 or WIRE CO.4.1 W.1 or WIRE CO.8.1 CI.8.3 after WIRE CO.8.1 CI.8.2 or, in version 2, RING 8.1 after COUPLE 1 2",
    },
    Words {
        name: "TapeFault",
        cause: "the form has not 3 to 144 lines, or its first or overflow line is not one of them (told at line 2); a stop at a line that the form doesn't have",
        cure: "correct the form, or move the stop",
        example: "STOP 3 13 on a form of 12 lines, or FORM 2 1 1 on line 2",
    },
];

// What the machine has too little of, from 61.
static CAPACITIES: [Words; 7] = [
    Words {
        name: "Counters",
        cause: "totals want A counter groups of W positions or more, and the machine has B. A total that needs more than 8 positions wants two groups of 8, and so counts as two at each width. Of several widths the largest is told",
        cure: "print a total in fewer digits, so that one group does, or a narrower one (a signed total needs one position more than its digits), or drop a total",
        example: "",
    },
    Words {
        name: "Pilots",
        cause: "more than 16 amounts with a sign column stand on DETAIL or TOTAL lines",
        cure: "drop the sign column of amounts that are never negative, or print fewer of them; an amount on several lines counts once",
        example: "",
    },
    Words {
        name: "Comparing",
        cause: "the CONTROL lines name more than 30 columns; a field that controls two levels counts twice",
        cure: "shorten a control field to the columns that tell its groups apart, or drop a level",
        example: "",
    },
    Words {
        name: "StorageWidth",
        cause: "the text on total line K has more than 16 columns",
        cure: "describe the columns once more as a shorter FIELD, and make that the control field",
        example: "",
    },
    Words {
        name: "StorageUnits",
        cause: "more than 4 texts stand on TOTAL lines",
        cure: "drop texts from the higher totals, or print them on the detail line with INDICATE",
        example: "",
    },
    Words {
        name: "Splits",
        cause: "more than 16 DETAIL amounts have their sign column among their own columns. Fault 62 comes before it, since each also wants one of the 16 pilots",
        cure: "drop the sign column of amounts that are never negative, or punch signs in a column beside the digits",
        example: "",
    },
    Words {
        name: "Indicate",
        cause: "the INDICATE items of level L have more than 30 columns together",
        cure: "print some of them on every card, or shorten them",
        example: "",
    },
];

// The faults of the text of a wiring chart, from 71.
static WIRING_TEXTS: [Words; 6] = [
    Words {
        name: "TooLarge",
        cause: "the wiring chart has more than 1,000,000 lines, or a line of more than 60 bytes",
        cure: "take out empty lines and spaces; no setup needs as many; or the files are in the wrong order",
        example: "",
    },
    Words {
        name: "NoFirstLine",
        cause: "line 1 is neither WIRING407 1 nor WIRING407 2, or line 2 is not FORM with three numbers",
        cure: "put them there; not even an empty line may come before or between them; or the files are in the wrong order",
        example: "FORM 12 1 on line 2",
    },
    Words {
        name: "NotALine",
        cause: "line K is no STOP, JACK or WIRE, in version 2 no RING or COUPLE either, or stands after END without being empty; also a second FORM, a channel that is not 2 to 11, a jack that the panel doesn't have, and a hub with letters that there aren't or with too many or too few numbers; in version 2 a WIRE with a CO or a CI, whatever its numbers, and a COUPLE of a group with itself",
        cure: "compare it with WIRING.md: a misspelt or missing word, a number with a leading zero, a tab, a small letter",
        example: "WIRE CC.1 W.1 or JACK TOTAL 5 or STOP 12 3 or, in version 2, COUPLE 1 1",
    },
    Words {
        name: "LineTwice",
        cause: "a line above said the same stop, jack or wire, in version 2 also the same ring or couple",
        cure: "take one of them out, or correct the one that was to be another",
        example: "JACK LIST\n         JACK LIST",
    },
    Words {
        name: "Unfit",
        cause: "line K is well written, and the panel can't have what it says; N is 51 to 54, and check --all prints its name",
        cure: "see fault N, as by run407 fault 51",
        example: "WIRE W.1 SR.1",
    },
    Words {
        name: "NoEnd",
        cause: "no line has END alone",
        cure: "the last line is END",
        example: "",
    },
];

// The fault of an order of the units, 84.
static ORDERS: [Words; 1] = [Words {
    name: "NotAnOrder",
    cause: "line K doesn't have the numbers of the 45 units, 1 to 45, each once, divided by spaces",
    cure: "name each unit once, without leading zeros and without empty lines between",
    example: "1 2 3",
}];

// The faults of what is to be explained, from 92.
static EXPLANATIONS: [Words; 2] = [
    Words {
        name: "NoSuchLine",
        cause: "no cycle of the run prints line L of page P",
        cure: "look at the pages: the report may end before page P; both are counted from 1, and the blank lines of the form between printed ones count too, but none of them can be explained",
        example: "run407 explain my.chart my.deck 1 66 1 where the report ends above line 66",
    },
    Words {
        name: "NoSuchWheel",
        cause: "the wheel is not one of 1 to 120",
        cure: "a line has 120 wheels: its first character is that of wheel 1",
        example: "run407 explain my.chart my.deck 1 4 0",
    },
];

// The faults of a panel beside a chart, from 94.
static MATCHES: [Words; 2] = [
    Words {
        name: "Unwired",
        cause: "the panel isn't wired for the chart: by the plan read off it, A wires, jacks and stops are missing and B are extra; a wrong FORM line counts as one of each",
        cure: "wire what stands under missing, and take out what stands under extra. If all wires of a total seem wrong, look at its counter groups: one is too narrow, and match says so, as line 8: group 3.1 is too narrow: 4 positions are needed; or of two coupled ones the one with the higher number has the lower digits. If all wires of a pilot, a storage unit or a split seem wrong, look whether something else was given the same one",
        example: "run407 match my.chart my.wiring where the wiring chart lacks a wire",
    },
    Words {
        name: "PrintsOtherwise",
        cause: "besides, the panel prints the deck otherwise than one that is wired for the chart; line L of page P is the first that differs",
        cure: "besides what is said of 94, look at the two explanations that are printed last, of the first wheel that differs on that line. If both name a counter, compare its ledgers",
        example: "run407 match --deck my.deck my.chart my.wiring where the wiring chart lacks a wire that the deck needs",
    },
];

// The fault of a card that is to be shown, 96.
static SHEETS: [Words; 1] = [Words {
    name: "NoSuchCard",
    cause: "the deck has no card K",
    cure: "cards are numbered from 1, and each line of the deck is one",
    example: "run407 fields my.chart my.deck 4 where the deck has three lines",
}];

// The entry of a fault by the words of those that are numbered from the first on.
fn entry_from(words: &[Words], first: u8, number: u8) -> FaultEntry
    requires from { first ≤ number }
    requires to { number < first + length words.now }
    ensures { result.number ≡ number }
{
    let words = &words[usize::from(number - first)];
    FaultEntry {
        number,
        name: words.name,
        cause: words.cause,
        cure: words.cure,
        example: words.example,
    }
}

/// The entry of a fault of the text of a deck, 1 to 4.
pub(crate) fn deck_text_entry(number: u8) -> FaultEntry
    requires from { 1 ≤ number }
    requires to { number ≤ 4 }
    ensures { result.number ≡ number }
{
    entry_from(&DECK_TEXTS, 1, number)
}

/// The entry of a fault of the text of a chart, 11 to 14.
pub(crate) fn chart_text_entry(number: u8) -> FaultEntry
    requires from { 11 ≤ number }
    requires to { number ≤ 14 }
    ensures { result.number ≡ number }
{
    entry_from(&CHART_TEXTS, 11, number)
}

/// The entry of a fault of a chart that breaks a rule, 21 to 38.
// A function for each table: what proves a function grows faster than the tables that it reads.
pub(crate) fn rule_entry(number: u8) -> FaultEntry
    requires from { 21 ≤ number }
    requires to { number ≤ 38 }
    ensures { result.number ≡ number }
{
    match number {
        21..=26 => field_rule_entry(number),
        27..=31 => total_rule_entry(number),
        32..=34 => wheel_rule_entry(number),
        _ => form_rule_entry(number),
    }
}

// The entry of a rule of names, fields and lines that stand twice, 21 to 26.
fn field_rule_entry(number: u8) -> FaultEntry
    requires from { 21 ≤ number }
    requires to { number ≤ 26 }
    ensures { result.number ≡ number }
{
    entry_from(&FIELD_RULES, 21, number)
}

// The entry of a rule of levels, totals and marks, 27 to 31.
fn total_rule_entry(number: u8) -> FaultEntry
    requires from { 27 ≤ number }
    requires to { number ≤ 31 }
    ensures { result.number ≡ number }
{
    entry_from(&TOTAL_RULES, 27, number)
}

// The entry of a rule of wheels, 32 to 34.
fn wheel_rule_entry(number: u8) -> FaultEntry
    requires from { 32 ≤ number }
    requires to { number ≤ 34 }
    ensures { result.number ≡ number }
{
    entry_from(&WHEEL_RULES, 32, number)
}

// The entry of a rule of what is printed, of forms and of coupled counters, 35 to 38.
fn form_rule_entry(number: u8) -> FaultEntry
    requires from { 35 ≤ number }
    requires to { number ≤ 38 }
    ensures { result.number ≡ number }
{
    entry_from(&FORM_RULES, 35, number)
}

/// The entry of a fault of the cards of a deck for a chart, 41 to 43.
pub(crate) fn card_entry(number: u8) -> FaultEntry
    requires from { 41 ≤ number }
    requires to { number ≤ 43 }
    ensures { result.number ≡ number }
{
    entry_from(&CARDS, 41, number)
}

/// The entry of a fault that a line of a wiring chart tells as its cause, 51 to 54.
pub(crate) fn setup_entry(number: u8) -> FaultEntry
    requires from { 51 ≤ number }
    requires to { number ≤ 54 }
    ensures { result.number ≡ number }
{
    entry_from(&UNFIT_LINES, 51, number)
}

/// The entry of a fault of a chart for which the machine has too little, 61 to 67.
pub(crate) fn capacity_entry(number: u8) -> FaultEntry
    requires from { 61 ≤ number }
    requires to { number ≤ 67 }
    ensures { result.number ≡ number }
{
    entry_from(&CAPACITIES, 61, number)
}

/// The entry of a fault of the text of a wiring chart, 71 to 76.
pub(crate) fn wiring_text_entry(number: u8) -> FaultEntry
    requires from { 71 ≤ number }
    requires to { number ≤ 76 }
    ensures { result.number ≡ number }
{
    entry_from(&WIRING_TEXTS, 71, number)
}

/// The entry of the fault of an order of the units, 84.
pub(crate) fn order_entry() -> FaultEntry
    ensures { result.number ≡ 84 }
{
    entry_from(&ORDERS, 84, 84)
}

/// The entry of a fault of what is to be explained, 92 or 93.
pub(crate) fn explanation_entry(number: u8) -> FaultEntry
    requires from { 92 ≤ number }
    requires to { number ≤ 93 }
    ensures { result.number ≡ number }
{
    entry_from(&EXPLANATIONS, 92, number)
}

/// The entry of a fault of a panel beside a chart, 94 or 95.
pub(crate) fn match_entry(number: u8) -> FaultEntry
    requires from { 94 ≤ number }
    requires to { number ≤ 95 }
    ensures { result.number ≡ number }
{
    entry_from(&MATCHES, 94, number)
}

/// The entry of the fault of a card that is to be shown, 96.
pub(crate) fn sheet_entry() -> FaultEntry
    ensures { result.number ≡ 96 }
{
    entry_from(&SHEETS, 96, 96)
}
