//! The words of the legend: the sentence of each row, and what stands before the wires of a line.

// Sentences.
pub(crate) const FIELD: &str =
    "A field by itself needs no wire: the lines that name it say where its columns lead.";

pub(crate) const SIGNED_FIELD: &str =
    "The sign column at first reading picks up the pilot of the amount, if a line shows the amount: so the pilot is set in the card's own cycle, in which the amount is printed or added.";

pub(crate) const CONTROL: &str =
    "Each column is compared between the card at first reading and the card before it at second reading; where the two differ, the program cycles of the level follow.";

pub(crate) const PRINT_DETAIL: &str = "Card cycles print, so each card has a line.";

pub(crate) const PRINT_GROUP: &str =
    "LIST stays unplugged: card cycles print nothing, so no card has a line.";

pub(crate) const HEADING: &str =
    "In the heading cycle of this line its emitter sends each character's rows to the character's wheel; HEAD is plugged for this heading line and those above it.";

pub(crate) const DETAIL_LITERAL: &str =
    "In each card cycle emitter 4 sends each character's rows to the character's wheel.";

pub(crate) const DETAIL_TEXT: &str =
    "In the cycle that prints the card's line each column at second reading leads to its wheel.";

pub(crate) const INDICATED_TEXT: &str =
    "Each column at second reading leads to its wheel through an indicate position of the level, which is closed for the first card of each group alone.";

pub(crate) const DETAIL_AMOUNT: &str =
    "Each column at second reading leads to the wheel of its digit; emitter 4 sends the point, if there are decimals; zero control leaves blank the zeros before the first figure, except the last digit and those behind the point.";

pub(crate) const MARKED_AMOUNT: &str =
    "Each column at second reading leads to the wheel of its digit. If the sign is over one of its columns, a split there keeps row 11 from the wheel. Emitter 4 sends the point, if there are decimals, and the mark: that goes through the side of the amount's pilot that is closed for a negative card. Zero control leaves blank the zeros before the first figure, except the last digit and those behind the point, and a mark that has no figure before it.";

pub(crate) const TOTAL_LITERAL: &str =
    "In the third program cycle of the level its emitter sends each character's rows to the character's wheel.";

pub(crate) const TOTAL_TEXT: &str =
    "A storage unit takes the columns from every card, and in the third program cycle of the level gives those of the last card of the group.";

pub(crate) const TOTAL: &str =
    "A counter adds each card's amount, or the amount's next lower total if there is one; in the third program cycle of the level it is read out to the wheels and into the next higher total, if any, and cleared.";

pub(crate) const SIGNED_TOTAL: &str =
    "A counter adds or subtracts each card's amount by its pilot, or the amount's next lower total, if there is one, by its balance; the first program cycle of the level tests the balance, the second turns a number below zero into its figure, and the third reads the figure out to the wheels and into the next higher total, if any, and clears the counter.";

pub(crate) const SINGLE_SPACE: &str =
    "The carriage spaces by one line unasked: nothing is wired for it.";

pub(crate) const WIDER_SPACE: &str =
    "The cycle that prints this kind of line asks the carriage for its spacing.";

pub(crate) const PAGE: &str =
    "The cycle that prints this kind of line sets the restore latch, so that the heading cycles come before the next line.";

pub(crate) const SKIP: &str =
    "The cycle that prints this kind of line has the form run on to the next hole of the channel.";

pub(crate) const FORM: &str =
    "The tape of the form: how many lines a page has, the line to which the carriage turns on a new page, and the line at which the page is full.";

pub(crate) const TAPE: &str =
    "The tape has a hole in this channel for each stop, whether a line skips there or not.";

// A line of the chart.
pub(crate) const BEFORE_THE_NUMBER: &str = " (line ";

pub(crate) const BEHIND_THE_NUMBER: &str = " of the chart)";
