//! The items of a chart: what its lines put on the lines of the report, and on which print wheels.

ghost use Rattle.std.specs.Prelude.{◌≡◌, ◌+◌, ◌^◌, ◌<◌};

use crate::field_rules::{Fields, first_named};
use chart_lines::charts::{
    BodyLine, DetailOption, Field, FieldKind, HeadingLine, Level, Literal, Mark, Name, Statement,
    TotalLine,
};

/// A line of the report that items stand on.
#[derive(Clone, Copy, Debug, PartialEq, Eq)]
pub enum PrintedLine {
    /// A heading line.
    Heading(HeadingLine),
    /// A body line.
    Body(BodyLine),
}

impl PrintedLine {
    ghost use Rattle.std.specs.Prelude.{◌≡◌};
    ghost use Rattle.chart_line_rules.specs.PrintRules.Items.{printed_line_of, is_same_line};

    /// The line of the report that a line of the chart puts an item on, if it is an item.
    pub fn of(statement: &Statement) -> Option<PrintedLine>
        ensures { result ≡ printed_line_of statement.now }
    {
        match statement {
            Statement::Head { line, .. } => Some(PrintedLine::Heading(*line)),
            Statement::DetailLiteral { .. } | Statement::DetailField { .. } => {
                Some(PrintedLine::Body(BodyLine::Detail))
            }
            Statement::TotalLiteral { level, .. } | Statement::TotalText { level, .. } => {
                Some(PrintedLine::Body(BodyLine::Total(*level)))
            }
            Statement::TotalAmount(total) => Some(PrintedLine::Body(BodyLine::Total(total.level))),
            _ => None,
        }
    }

    /// Whether two lines of the report are the same.
    pub fn is(self, other: PrintedLine) -> bool
        ensures { result ≡ is_same_line self other }
    {
        self == other
    }
}

/// How an amount is printed.
#[derive(Clone, Copy, Debug, PartialEq, Eq)]
pub struct Figure {
    /// Its digits, decimals included.
    pub digits: u32,
    /// How many of its digits are decimals.
    pub decimals: u16,
    /// The mark that it has where it is negative.
    pub mark: Option<Mark>,
}

impl Figure {
    ghost use Rattle.std.specs.Prelude.{◌≡◌, ◌+◌, ◌^◌, ◌<◌};
    ghost use Rattle.chart_line_rules.specs.PrintRules.Items.{figure_width};

    /// How many wheels it takes: its digits, one for the point if it has decimals, and its mark.
    pub fn width(self) -> usize
        ensures value { result ≡ figure_width self }
        ensures small { result < 2 ^ 32 + 512 }
    {
        let point = usize::from(self.decimals > 0);
        self.digits as usize + point + usize::from(mark_width(self.mark))
    }
}

/// What a line of a chart puts on a line of the report.
#[derive(Clone, Copy, Debug, PartialEq, Eq)]
pub struct Item {
    /// The line of the report that it stands on.
    pub line: PrintedLine,
    /// Its first wheel.
    pub first: usize,
    /// The wheel after its last.
    pub end: usize,
    /// How it is printed, if it is an amount; a literal and a text take a wheel for each character.
    pub figure: Option<Figure>,
}

impl Item {
    ghost use Rattle.std.specs.Prelude.{◌≡◌};
    ghost use Rattle.chart_line_rules.specs.PrintRules.Items.{item_of};

    /// The item that a line of a chart with these fields is, if it is one.
    pub fn of(fields: &[Field], statement: &Statement) -> Option<Item>
        ensures { result ≡ item_of fields.now statement.now }
    {
        match name_printed(statement) {
            Some(name) => item_with(first_named(fields, name), statement),
            None => item_with(None, statement),
        }
    }
}

ghost use Rattle.std.specs.Prelude.{length};
ghost use Rattle.chart_lines.specs.declared.charts.statement.BodyLine.TheVariants as body;
ghost use Rattle.chart_lines.specs.ChartsWords.Field.{columns_of};
ghost use Rattle.chart_line_rules.specs.PrintRules.Items as items;
ghost use Rattle.chart_line_rules.specs.PrintRules.HelperItems as printed;

/// The item that a line of a chart is, if it is one, where many lines are asked for: names are looked up in the index of the fields.
pub(crate) fn item_among(fields: &Fields, statement: &Statement) -> Option<Item>
    ensures { result ≡ items.item_of fields.now statement.now }
{
    match name_printed(statement) {
        Some(name) => item_with(fields.get(name), statement),
        None => item_with(None, statement),
    }
}

/// The name of the field that a line puts on the report, if it puts one there.
fn name_printed(statement: &Statement) -> Option<Name>
    ensures { result ≡ printed.name_printed statement.now }
{
    match statement {
        Statement::DetailField { name, .. } | Statement::TotalText { name, .. } => Some(*name),
        Statement::TotalAmount(total) => Some(total.name),
        _ => None,
    }
}

/// The item that a line is, if it is one, where its name stands for a field, or for none.
fn item_with(field: Option<Field>, statement: &Statement) -> Option<Item>
    ensures { result ≡ printed.item_with field statement.now }
{
    match statement {
        Statement::Head {
            line,
            wheel,
            literal,
        } => Some(literal_item(PrintedLine::Heading(*line), *wheel, literal)),
        Statement::DetailLiteral { wheel, literal } => {
            Some(literal_item(PrintedLine::Body(BodyLine::Detail), *wheel, literal))
        }
        Statement::TotalLiteral {
            level,
            wheel,
            literal,
        } => Some(literal_item(total_line(*level), *wheel, literal)),
        _ => field_item(field?, statement),
    }
}

/// What a line puts on the report of a field, if it puts one there.
fn field_item(field: Field, statement: &Statement) -> Option<Item>
    ensures { result ≡ printed.field_item field statement.now }
{
    match statement {
        Statement::DetailField { wheel, shown, .. } => Some(detail_item(*wheel, *shown, field)),
        Statement::TotalText { level, wheel, .. } => {
            Some(text_item(total_line(*level), *wheel, field.columns()))
        }
        Statement::TotalAmount(total) => Some(total_item(*total, field.kind)),
        _ => None,
    }
}

/// How many wheels a mark takes.
fn mark_width(mark: Option<Mark>) -> u8
    ensures { result ≡ items.mark_width mark }
{
    match mark {
        None => 0,
        Some(Mark::Credit) => 2,
        Some(Mark::Minus) => 1,
    }
}

/// The total line of a level.
fn total_line(level: Level) -> PrintedLine
    ensures { result ≡ PrintedLine.Body (body.Total level) }
{
    PrintedLine::Body(BodyLine::Total(level))
}

/// The mark that an option of a field on the line of a card gives it.
pub fn mark_shown(shown: DetailOption) -> Option<Mark>
    ensures { result ≡ items.mark_shown shown }
{
    match shown {
        DetailOption::Marked(mark) => Some(mark),
        DetailOption::Plain | DetailOption::Indicated(_) => None,
    }
}

/// A literal, from a wheel on.
fn literal_item(line: PrintedLine, wheel: u16, literal: &Literal) -> Item
    ensures { result ≡ items.text_item line wheel (length literal.now) }
{
    let first = usize::from(wheel);
    let end = first + literal.characters().len();
    Item {
        line,
        first,
        end,
        figure: None,
    }
}

/// A text of so many columns, from a wheel on.
fn text_item(line: PrintedLine, wheel: u16, columns: u32) -> Item
    ensures { result ≡ items.text_item line wheel columns }
{
    let first = usize::from(wheel);
    let end = first + columns as usize;
    Item {
        line,
        first,
        end,
        figure: None,
    }
}

/// An amount, from a wheel on.
fn figure_item(line: PrintedLine, wheel: u16, figure: Figure) -> Item
    ensures { result ≡ items.figure_item line wheel figure }
{
    let first = usize::from(wheel);
    let end = first + figure.width();
    Item {
        line,
        first,
        end,
        figure: Some(figure),
    }
}

/// A total of an amount.
fn total_item(total: TotalLine, kind: FieldKind) -> Item
    ensures { result ≡ items.total_item total kind }
{
    let figure = Figure {
        digits: u32::from(total.digits),
        decimals: kind.decimals(),
        mark: total.mark,
    };
    figure_item(total_line(total.level), total.wheel, figure)
}

/// A field on the line of a card.
fn detail_item(wheel: u16, shown: DetailOption, field: Field) -> Item
    ensures { result ≡ items.detail_item wheel shown (columns_of field) field.kind }
{
    let line = PrintedLine::Body(BodyLine::Detail);
    let kind = field.kind;
    let columns = field.columns();
    match kind {
        FieldKind::Text => text_item(line, wheel, columns),
        FieldKind::Amount { decimals, .. } => {
            let mark = mark_shown(shown);
            figure_item(
                line,
                wheel,
                Figure {
                    digits: columns,
                    decimals,
                    mark,
                },
            )
        }
    }
}
