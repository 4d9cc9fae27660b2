//! How the forms of a chart go on behind their first words.

ghost use Rattle.std.specs.Prelude.{◌≡◌};
ghost use Rattle.fault_slips.specs.WordSlips.Stages as law;
ghost use Rattle.fault_slips.specs.WordSlips.Phrases as said;

use crate::word_slips::words::{is_literal, is_name, is_number, is_up_to};
use crate::wording;
use chart_lines::tokens::is;

/// What a form has next, behind words that it begins with.
#[derive(Clone, Copy, Debug, PartialEq, Eq)]
pub enum Stage {
    /// FIELD: the name.
    FieldName,
    /// FIELD: TEXT or AMOUNT.
    FieldKind,
    /// TEXT: the first column.
    TextFirst,
    /// TEXT: the last column.
    TextLast,
    /// AMOUNT: the first column.
    AmountFirst,
    /// AMOUNT: the last column.
    AmountLast,
    /// AMOUNT: the number of decimals.
    Decimals,
    /// AMOUNT: X or NX, or nothing.
    SignWord,
    /// X or NX: the sign column.
    SignColumn,
    /// CONTROL: the level.
    ControlLevel,
    /// CONTROL: the name of a field.
    ControlName,
    /// PRINT: DETAIL or GROUP.
    PrintKind,
    /// HEAD: the heading line.
    HeadLine,
    /// HEAD: the wheel.
    HeadWheel,
    /// HEAD: the literal.
    HeadLiteral,
    /// DETAIL: the wheel.
    DetailWheel,
    /// DETAIL: the name of a field, or a literal.
    DetailItem,
    /// DETAIL: INDICATE or MARK behind a name, or nothing.
    DetailOption,
    /// INDICATE: the level.
    IndicatedLevel,
    /// MARK: CR or -.
    MarkSign,
    /// TOTAL: the level.
    TotalLevel,
    /// TOTAL: the wheel.
    TotalWheel,
    /// TOTAL: the name of a field, or a literal.
    TotalItem,
    /// TOTAL: the digits behind a name, or nothing.
    TotalDigits,
    /// TOTAL: COUPLED or MARK behind the digits, or nothing.
    TotalOption,
    /// TOTAL: MARK behind COUPLED, or nothing.
    TotalMark,
    /// SPACE: the kind of line.
    SpaceKind,
    /// SPACE TOTAL: the level.
    SpaceLevel,
    /// SPACE: the spacing.
    SpaceCount,
    /// AFTER: the kind of line.
    AfterKind,
    /// AFTER TOTAL: the level.
    AfterLevel,
    /// AFTER: PAGE or SKIP.
    AfterWhat,
    /// SKIP: the channel.
    SkipChannel,
    /// FORM: the lines of a page.
    FormLines,
    /// FORM: the first line.
    FormFirst,
    /// FORM: the overflow line.
    FormOverflow,
    /// TAPE: the channel.
    TapeChannel,
    /// TAPE: the first stop.
    FirstStop,
    /// TAPE: one of so many further stops, or nothing.
    Stops(u8),
    /// The form is complete.
    Nothing,
}

/// What a form has behind its first word.
#[tactic(auto, unfolding(crate::specs::WordSlips::Stages::first_stage))]
pub(crate) fn first_stage(text: &[u8]) -> Option<Stage>
    ensures { result ≡ law.first_stage text.now }
{
    if is(text, b"FIELD") {
        Some(Stage::FieldName)
    } else if is(text, b"CONTROL") {
        Some(Stage::ControlLevel)
    } else if is(text, b"PRINT") {
        Some(Stage::PrintKind)
    } else if is(text, b"HEAD") {
        Some(Stage::HeadLine)
    } else if is(text, b"DETAIL") {
        Some(Stage::DetailWheel)
    } else if is(text, b"TOTAL") {
        Some(Stage::TotalLevel)
    } else if is(text, b"SPACE") {
        Some(Stage::SpaceKind)
    } else if is(text, b"AFTER") {
        Some(Stage::AfterKind)
    } else if is(text, b"FORM") {
        Some(Stage::FormLines)
    } else if is(text, b"TAPE") {
        Some(Stage::TapeChannel)
    } else if is(text, b"END") {
        Some(Stage::Nothing)
    } else {
        None
    }
}

/// A stage, if a word fits the one before it.
fn if_fits(fits: bool, next: Stage) -> Option<Stage>
    ensures { result ≡ law.if_fits fits next }
{
    if fits { Some(next) } else { None }
}

/// What follows a word that is one of two.
fn if_either(
    text: &[u8],
    one: &[u8],
    behind_one: Stage,
    other: &[u8],
    behind_other: Stage,
) -> Option<Stage>
    ensures { result ≡ law.if_either text.now one.now behind_one other.now behind_other }
{
    if is(text, one) {
        Some(behind_one)
    } else if is(text, other) {
        Some(behind_other)
    } else {
        None
    }
}

/// What follows the item of a line: one stage behind a name, and nothing behind a literal.
fn behind_item(text: &[u8], behind_name: Stage) -> Option<Stage>
    ensures { result ≡ law.behind_item text.now behind_name }
{
    if is_name(text) {
        Some(behind_name)
    } else if is_literal(text) {
        Some(Stage::Nothing)
    } else {
        None
    }
}

/// What follows a stop behind which so many others may stand, itself among them.
fn behind_stop(text: &[u8], left: u8) -> Option<Stage>
    ensures { result ≡ law.behind_stop text.now left }
{
    if 0 < left && is_number(text) {
        Some(Stage::Stops(left - 1))
    } else {
        None
    }
}

/// What a form has next behind a word at a stage, or `None` if no form has the word there.
#[tactic(auto, unfolding(crate::specs::WordSlips::Stages::behind))]
pub(crate) fn behind(stage: Stage, text: &[u8]) -> Option<Stage>
    ensures { result ≡ law.behind stage text.now }
{
    match stage {
        Stage::FieldName => if_fits(is_name(text), Stage::FieldKind),
        Stage::FieldKind => if_either(
            text,
            b"TEXT",
            Stage::TextFirst,
            b"AMOUNT",
            Stage::AmountFirst,
        ),
        Stage::TextFirst => if_fits(is_number(text), Stage::TextLast),
        Stage::TextLast => if_fits(is_number(text), Stage::Nothing),
        Stage::AmountFirst => if_fits(is_number(text), Stage::AmountLast),
        Stage::AmountLast => if_fits(is_number(text), Stage::Decimals),
        Stage::Decimals => if_fits(is_number(text), Stage::SignWord),
        Stage::SignWord => if_either(text, b"X", Stage::SignColumn, b"NX", Stage::SignColumn),
        Stage::SignColumn => if_fits(is_number(text), Stage::Nothing),
        Stage::ControlLevel => if_fits(is_up_to(3, text), Stage::ControlName),
        Stage::ControlName => if_fits(is_name(text), Stage::Nothing),
        Stage::PrintKind => if_either(text, b"DETAIL", Stage::Nothing, b"GROUP", Stage::Nothing),
        Stage::HeadLine => if_fits(is_up_to(3, text), Stage::HeadWheel),
        Stage::HeadWheel => if_fits(is_number(text), Stage::HeadLiteral),
        Stage::HeadLiteral => if_fits(is_literal(text), Stage::Nothing),
        Stage::DetailWheel => if_fits(is_number(text), Stage::DetailItem),
        Stage::DetailItem => behind_item(text, Stage::DetailOption),
        Stage::DetailOption => if_either(
            text,
            b"INDICATE",
            Stage::IndicatedLevel,
            b"MARK",
            Stage::MarkSign,
        ),
        Stage::IndicatedLevel => if_fits(is_up_to(3, text), Stage::Nothing),
        Stage::MarkSign => if_either(text, b"CR", Stage::Nothing, b"-", Stage::Nothing),
        Stage::TotalLevel => if_fits(is_up_to(4, text), Stage::TotalWheel),
        Stage::TotalWheel => if_fits(is_number(text), Stage::TotalItem),
        Stage::TotalItem => behind_item(text, Stage::TotalDigits),
        Stage::TotalDigits => if_fits(is_number(text), Stage::TotalOption),
        Stage::TotalOption => if_either(
            text,
            b"COUPLED",
            Stage::TotalMark,
            b"MARK",
            Stage::MarkSign,
        ),
        Stage::TotalMark => if_fits(is(text, b"MARK"), Stage::MarkSign),
        Stage::SpaceKind => if_either(
            text,
            b"DETAIL",
            Stage::SpaceCount,
            b"TOTAL",
            Stage::SpaceLevel,
        ),
        Stage::SpaceLevel => if_fits(is_up_to(4, text), Stage::SpaceCount),
        Stage::SpaceCount => if_fits(is_up_to(3, text), Stage::Nothing),
        Stage::AfterKind => if_either(
            text,
            b"DETAIL",
            Stage::AfterWhat,
            b"TOTAL",
            Stage::AfterLevel,
        ),
        Stage::AfterLevel => if_fits(is_up_to(4, text), Stage::AfterWhat),
        Stage::AfterWhat => if_either(text, b"PAGE", Stage::Nothing, b"SKIP", Stage::SkipChannel),
        Stage::SkipChannel => if_fits(is_number(text), Stage::Nothing),
        Stage::FormLines => if_fits(is_number(text), Stage::FormFirst),
        Stage::FormFirst => if_fits(is_number(text), Stage::FormOverflow),
        Stage::FormOverflow => if_fits(is_number(text), Stage::Nothing),
        Stage::TapeChannel => if_fits(is_number(text), Stage::FirstStop),
        Stage::FirstStop => if_fits(is_number(text), Stage::Stops(9)),
        Stage::Stops(left) => behind_stop(text, left),
        Stage::Nothing => None,
    }
}

/// Whether a form may end at a stage.
pub(crate) fn may_end(stage: Stage) -> bool
    ensures { result ≡ law.may_end stage }
{
    matches!(
        stage,
        Stage::SignWord
            | Stage::DetailOption
            | Stage::TotalDigits
            | Stage::TotalOption
            | Stage::TotalMark
            | Stage::Stops(_)
            | Stage::Nothing
    )
}

/// What belongs at a stage.
#[tactic(auto, unfolding(crate::specs::WordSlips::Phrases::phrase))]
pub(crate) fn phrase(stage: Stage) -> &'static str
    ensures { result.now ≡ said.phrase stage }
{
    match stage {
        Stage::FieldName => wording::A_NEW_NAME,
        Stage::FieldKind => wording::TEXT_OR_AMOUNT,
        Stage::TextFirst => wording::THE_FIRST_COLUMN,
        Stage::TextLast => wording::THE_LAST_COLUMN,
        Stage::AmountFirst => wording::THE_FIRST_COLUMN,
        Stage::AmountLast => wording::THE_LAST_COLUMN,
        Stage::Decimals => wording::THE_NUMBER_OF_DECIMALS,
        Stage::SignWord => wording::X_OR_NX,
        Stage::SignColumn => wording::THE_SIGN_COLUMN,
        Stage::ControlLevel => wording::A_LEVEL_1_TO_3,
        Stage::ControlName => wording::THE_NAME_OF_A_FIELD,
        Stage::PrintKind => wording::DETAIL_OR_GROUP,
        Stage::HeadLine => wording::A_HEADING_LINE,
        Stage::HeadWheel => wording::A_WHEEL,
        Stage::HeadLiteral => wording::A_LITERAL,
        Stage::DetailWheel => wording::A_WHEEL,
        Stage::DetailItem => wording::A_NAME_OR_A_LITERAL,
        Stage::DetailOption => wording::INDICATE_OR_MARK,
        Stage::IndicatedLevel => wording::A_LEVEL_1_TO_3,
        Stage::MarkSign => wording::CREDIT_OR_MINUS,
        Stage::TotalLevel => wording::A_LEVEL_1_TO_4,
        Stage::TotalWheel => wording::A_WHEEL,
        Stage::TotalItem => wording::A_NAME_OR_A_LITERAL,
        Stage::TotalDigits => wording::THE_NUMBER_OF_DIGITS,
        Stage::TotalOption => wording::MARK_OR_COUPLED,
        Stage::TotalMark => wording::MARK_OR_NOTHING,
        Stage::SpaceKind => wording::DETAIL_OR_TOTAL,
        Stage::SpaceLevel => wording::A_LEVEL_1_TO_4,
        Stage::SpaceCount => wording::A_SPACING,
        Stage::AfterKind => wording::DETAIL_OR_TOTAL,
        Stage::AfterLevel => wording::A_LEVEL_1_TO_4,
        Stage::AfterWhat => wording::PAGE_OR_SKIP,
        Stage::SkipChannel => wording::A_CHANNEL,
        Stage::FormLines => wording::THE_NUMBER_OF_LINES,
        Stage::FormFirst => wording::THE_FIRST_LINE,
        Stage::FormOverflow => wording::THE_OVERFLOW_LINE,
        Stage::TapeChannel => wording::A_CHANNEL,
        Stage::FirstStop => wording::A_STOP,
        Stage::Stops(_) => wording::A_FURTHER_STOP,
        Stage::Nothing => wording::THE_END_OF_THE_LINE,
    }
}
