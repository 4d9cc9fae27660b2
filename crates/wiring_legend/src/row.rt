//! The rows of the wiring table, and the sentence of each.

ghost use Rattle.std.specs.Prelude.{◌≡◌};
ghost use Rattle.chart_line_rules.specs.FieldRules.Fields.{field_named};
ghost use Rattle.wiring_legend.specs.Rows.{detail_row, field_row, kind_named, row_of, sentence, total_row};

use crate::wording;
use chart_lines::charts::{
    After, DetailOption, Field, FieldKind, Name, Printing, Spacing, Statement,
};
use chart_rules::Chart;

/// What kind of thing a line of a chart asks of the panel.
#[derive(Clone, Copy)]
pub enum LegendRow {
    /// A field of which no sign column is picked up.
    Field,
    /// An amount with a sign rule.
    SignedField,
    /// A control field.
    Control,
    /// A line for each card.
    PrintDetail,
    /// Totals alone.
    PrintGroup,
    /// A literal on a heading line.
    Heading,
    /// A literal on the line of a card.
    DetailLiteral,
    /// A text on the line of a card.
    DetailText,
    /// A text on the line of the first card of each group.
    IndicatedText,
    /// An amount on the line of a card.
    DetailAmount,
    /// An amount on the line of a card with a mark where it is negative.
    MarkedAmount,
    /// A literal on a total line.
    TotalLiteral,
    /// A text on a total line.
    TotalText,
    /// A total of an amount without a sign rule.
    Total,
    /// A total of an amount with a sign rule.
    SignedTotal,
    /// Single spacing.
    SingleSpace,
    /// Double or triple spacing.
    WiderSpace,
    /// A page after a line.
    Page,
    /// A skip after a line.
    Skip,
    /// The form.
    Form,
    /// The stops of a channel.
    Tape,
}

impl LegendRow {
    ghost use Rattle.wiring_legend.specs.Rows.{sentence};

    /// What the row asks of the panel, as a sentence without a line's end.
    pub fn sentence(self) -> &'static str
        ensures { result.now ≡ sentence self }
    {
        match self {
            LegendRow::Field => wording::FIELD,
            LegendRow::SignedField => wording::SIGNED_FIELD,
            LegendRow::Control => wording::CONTROL,
            LegendRow::PrintDetail => wording::PRINT_DETAIL,
            LegendRow::PrintGroup => wording::PRINT_GROUP,
            LegendRow::Heading => wording::HEADING,
            LegendRow::DetailLiteral => wording::DETAIL_LITERAL,
            LegendRow::DetailText => wording::DETAIL_TEXT,
            LegendRow::IndicatedText => wording::INDICATED_TEXT,
            LegendRow::DetailAmount => wording::DETAIL_AMOUNT,
            LegendRow::MarkedAmount => wording::MARKED_AMOUNT,
            LegendRow::TotalLiteral => wording::TOTAL_LITERAL,
            LegendRow::TotalText => wording::TOTAL_TEXT,
            LegendRow::Total => wording::TOTAL,
            LegendRow::SignedTotal => wording::SIGNED_TOTAL,
            LegendRow::SingleSpace => wording::SINGLE_SPACE,
            LegendRow::WiderSpace => wording::WIDER_SPACE,
            LegendRow::Page => wording::PAGE,
            LegendRow::Skip => wording::SKIP,
            LegendRow::Form => wording::FORM,
            LegendRow::Tape => wording::TAPE,
        }
    }

    /// The row of a line of a chart, by what the line says.
    pub fn of(chart: &Chart, statement: &Statement) -> LegendRow
        ensures { result ≡ row_of chart.now.lines statement.now }
    {
        match statement {
            Statement::Field(field) => field_row(field.kind),
            Statement::Control { .. } => LegendRow::Control,
            Statement::Print(Printing::Detail) => LegendRow::PrintDetail,
            Statement::Print(Printing::Group) => LegendRow::PrintGroup,
            Statement::Head { .. } => LegendRow::Heading,
            Statement::DetailLiteral { .. } => LegendRow::DetailLiteral,
            Statement::DetailField { name, shown, .. } => detail_row(
                kind_named(chart, *name),
                *shown,
            ),
            Statement::TotalLiteral { .. } => LegendRow::TotalLiteral,
            Statement::TotalText { .. } => LegendRow::TotalText,
            Statement::TotalAmount(total) => total_row(kind_named(chart, total.name)),
            Statement::Space {
                spacing: Spacing::Single,
                ..
            } => LegendRow::SingleSpace,
            Statement::Space { .. } => LegendRow::WiderSpace,
            Statement::After {
                action: After::Page,
                ..
            } => LegendRow::Page,
            Statement::After { .. } => LegendRow::Skip,
            Statement::Form { .. } => LegendRow::Form,
            Statement::Tape { .. } => LegendRow::Tape,
        }
    }
}

// What the field of a name holds; characters, where no field has the name.
fn kind_named(chart: &Chart, name: Name) -> FieldKind
    ensures { result ≡ kind_named (field_named chart.now.lines name) }
{
    match chart.field(name) {
        Some(field) => field.kind,
        None => FieldKind::Text,
    }
}

fn field_row(kind: FieldKind) -> LegendRow
    ensures { result ≡ field_row kind }
{
    match kind {
        FieldKind::Amount { sign: Some(_), .. } => LegendRow::SignedField,
        FieldKind::Amount { sign: None, .. } | FieldKind::Text => LegendRow::Field,
    }
}

fn detail_row(kind: FieldKind, shown: DetailOption) -> LegendRow
    ensures { result ≡ detail_row kind shown }
{
    match (kind, shown) {
        (FieldKind::Text, DetailOption::Indicated(_)) => LegendRow::IndicatedText,
        (FieldKind::Text, _) => LegendRow::DetailText,
        (FieldKind::Amount { .. }, DetailOption::Marked(_)) => LegendRow::MarkedAmount,
        (FieldKind::Amount { .. }, _) => LegendRow::DetailAmount,
    }
}

fn total_row(kind: FieldKind) -> LegendRow
    ensures { result ≡ total_row kind }
{
    match kind {
        FieldKind::Amount { sign: Some(_), .. } => LegendRow::SignedTotal,
        FieldKind::Amount { sign: None, .. } | FieldKind::Text => LegendRow::Total,
    }
}
