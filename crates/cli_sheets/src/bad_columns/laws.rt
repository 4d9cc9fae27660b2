//! Laws over definitions alone.

ghost use Rattle.cli_sheets.specs.BadColumns.Laws.{BadColumnsStandInFirstInvalidFields};

/// If a card isn't valid for a chart, then a column is told of it. That is one of the chart's first field that isn't valid on the card: of the field
/// that the card's fault names by its first column. The function does nothing: its contract is the law.
pub fn bad_columns_stand_in_first_invalid_fields()
    ensures { BadColumnsStandInFirstInvalidFields }
{}
