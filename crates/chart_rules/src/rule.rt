//! The rules of charts, by their numbers.

/// A rule of charts. A chart is judged by them in this order.
#[derive(Clone, Copy, Debug, PartialEq, Eq)]
pub enum Rule {
    /// 21: a FIELD whose name stands on an earlier FIELD.
    NameTwice,
    /// 22: columns that are not on the card, or not in order.
    Columns,
    /// 23: an amount of more than 8 digits, or with more than 3 decimals, or with more decimals than digits.
    AmountSize,
    /// 24: a name without a FIELD.
    UnknownName,
    /// 25: an amount where a text belongs, or a text where an amount belongs.
    WrongKind,
    /// 26: a line that says again what a chart says once.
    LineTwice,
    /// 27: TOTAL or INDICATE of a level 1 to 3 without CONTROL of that level.
    NoControl,
    /// 28: a text on a total line that is no control field of its level or a higher one.
    TotalTextNotControl,
    /// 29: a total in fewer digits than its field, in more than 16, or in more than 15 with a sign column.
    DigitsRange,
    /// 30: a total in fewer digits than one of the same amount at a lower level.
    DigitsShrink,
    /// 31: an amount item with a mark without a sign column, or the reverse.
    MarkMismatch,
    /// 32: an item that is not within wheels 1 to 120.
    WheelRange,
    /// 33: an item that meets an earlier one of the same printed line.
    WheelOverlap,
    /// 34: an item that meets an earlier one of another body line and may not share its wheels.
    WheelClash,
    /// 35: no PRINT line, or lines that do not go with what is printed.
    PrintKind,
    /// 36: no FORM line, or lines of a form that leave no room for the report.
    Form,
    /// 37: a channel or stops out of range, or a skip to a channel without a TAPE line.
    Tape,
    /// 38: in a chart of version 2, a total with the word COUPLED that needs 8 positions or fewer, or one without it that needs
    /// more. In a chart of version 1 no line breaks it.
    CoupledMark,
}

impl Rule {
    ghost use Rattle.std.specs.Prelude.{◌≡◌};
    ghost use Rattle.chart_rules.specs.Rules.{rule_number};

    /// The number of the rule, 21 to 38.
    pub fn number(self) -> u8
        ensures { result ≡ rule_number self }
    {
        match self {
            Rule::NameTwice => 21,
            Rule::Columns => 22,
            Rule::AmountSize => 23,
            Rule::UnknownName => 24,
            Rule::WrongKind => 25,
            Rule::LineTwice => 26,
            Rule::NoControl => 27,
            Rule::TotalTextNotControl => 28,
            Rule::DigitsRange => 29,
            Rule::DigitsShrink => 30,
            Rule::MarkMismatch => 31,
            Rule::WheelRange => 32,
            Rule::WheelOverlap => 33,
            Rule::WheelClash => 34,
            Rule::PrintKind => 35,
            Rule::Form => 36,
            Rule::Tape => 37,
            Rule::CoupledMark => 38,
        }
    }
}
