//! What a line of a planning chart can say.

use crate::charts::heading::HeadingLine;
use crate::charts::level::{ControlLevel, Level};
use crate::charts::name::Name;
use crate::charts::spacing::Spacing;
use std::marker::Model;

/// How many characters a literal has at most.
pub const MAX_LITERAL: usize = 120;

/// The characters of a literal, 1 to 120 print characters or blanks.
#[derive(Drop)]
pub struct Literal {
    characters: Vec<u8>,
}

impl Model for Literal {
    ghost use Rattle.std.specs.Prelude.{List, ℕ};
    ghost use Rattle.chart_lines.specs.ChartsWords.Literal.{IsLiteralText};

    ghost Value = { List ℕ };

    ghost view = { λ literal. literal.characters.items };

    ghost invariant = { λ literal. IsLiteralText literal.characters.items };
}

impl Literal {
    ghost use Rattle.std.specs.Prelude.{◌≡◌, ◌≤◌, length};
    ghost use Rattle.chart_lines.specs.ChartsWords.Literal.{IsLiteralText};

    /// The literal of these 1 to 120 characters, each a print character or a blank.
    pub fn from_vec(characters: Vec<u8>) -> Literal
        requires { IsLiteralText characters.items }
        ensures { result ≡ characters.items }
    {
        Literal { characters }
    }

    /// Its characters, in order.
    pub fn characters(&self) -> &[u8]
        ensures value { result.now ≡ self.now }
        ensures size { length self.now ≤ 120 }
        ensures text { IsLiteralText self.now }
    {
        self.characters.as_slice()
    }

    /// Gives its characters back.
    pub fn into_vec(self) -> Vec<u8>
        ensures { result.items ≡ self }
    {
        self.characters
    }
}

/// How many stops a channel has at most.
pub const MAX_STOPS: usize = 10;

/// The lines of a channel's stops, 1 to 10 of them.
#[derive(Drop)]
pub struct Stops {
    lines: Vec<u16>,
}

impl Model for Stops {
    ghost use Rattle.std.specs.Prelude.{List, ℕ, ◌≤◌, length};

    ghost Value = { List ℕ };

    ghost view = { λ stops. stops.lines.items };

    ghost invariant = { λ stops. (1 ≤ length stops.lines.items) × (length stops.lines.items ≤ 10) };
}

impl Stops {
    ghost use Rattle.std.specs.Prelude.{◌≡◌, ◌≤◌, length};

    /// The stops at these 1 to 10 lines.
    pub fn from_vec(lines: Vec<u16>) -> Stops
        requires some { 1 ≤ length lines.items }
        requires few { length lines.items ≤ 10 }
        ensures { result ≡ lines.items }
    {
        Stops { lines }
    }

    /// Their lines, in the order of the chart.
    pub fn lines(&self) -> &[u16]
        ensures value { result.now ≡ self.now }
        ensures some { 1 ≤ length self.now }
        ensures few { length self.now ≤ 10 }
    {
        self.lines.as_slice()
    }

    /// Gives the lines back.
    pub fn into_vec(self) -> Vec<u16>
        ensures { result.items ≡ self }
    {
        self.lines
    }
}

/// When an amount is negative, by the row 11 of its sign column.
#[derive(Clone, Copy, Debug, PartialEq, Eq)]
pub enum SignRule {
    /// Where the column has row 11.
    X(u16),
    /// Where the column has no row 11.
    NX(u16),
}

/// What the columns of a field hold.
#[derive(Clone, Copy, Debug, PartialEq, Eq)]
pub enum FieldKind {
    /// Characters.
    Text,
    /// A number.
    Amount {
        /// How many of its digits are decimals.
        decimals: u16,
        /// When it is negative, if it can be.
        sign: Option<SignRule>,
    },
}

impl FieldKind {
    ghost use Rattle.std.specs.Prelude.{◌≡◌};
    ghost use Rattle.chart_lines.specs.ChartsWords.Field.{decimals_of, is_amount, sign_column};

    /// Whether the columns hold an amount.
    pub fn is_amount(self) -> bool
        ensures { result ≡ is_amount self }
    {
        matches!(self, FieldKind::Amount { .. })
    }

    /// The decimals of an amount; a text has none.
    pub fn decimals(self) -> u16
        ensures { result ≡ decimals_of self }
    {
        match self {
            FieldKind::Text => 0,
            FieldKind::Amount { decimals, .. } => decimals,
        }
    }

    /// The sign column of an amount that has a sign rule.
    pub fn sign_column(self) -> Option<u16>
        ensures { result ≡ sign_column self }
    {
        match self {
            FieldKind::Amount {
                sign: Some(SignRule::X(column) | SignRule::NX(column)),
                ..
            } => Some(column),
            _ => None,
        }
    }
}

/// A field of the cards: its name, its columns and what they hold.
#[derive(Clone, Copy, Debug, PartialEq, Eq)]
pub struct Field {
    /// Its name.
    pub name: Name,
    /// Its first column.
    pub first: u16,
    /// Its last column.
    pub last: u16,
    /// What its columns hold.
    pub kind: FieldKind,
}

impl Field {
    ghost use Rattle.std.specs.Prelude.{◌≡◌};
    ghost use Rattle.chart_lines.specs.ChartsWords.Field.{columns_of};

    /// How many columns it has: the digits of an amount, the characters of a text.
    pub fn columns(self) -> u32
        ensures { result ≡ columns_of self }
    {
        (u32::from(self.last) + 1).saturating_sub(u32::from(self.first))
    }
}

/// Which lines a report prints.
#[derive(Clone, Copy, Debug, PartialEq, Eq)]
pub enum Printing {
    /// A line for each card, and totals.
    Detail,
    /// Totals alone.
    Group,
}

/// The mark of a negative amount.
#[derive(Clone, Copy, Debug, PartialEq, Eq)]
pub enum Mark {
    /// `CR`.
    Credit,
    /// `-`.
    Minus,
}

/// A kind of body line.
#[derive(Clone, Copy, Debug, PartialEq, Eq)]
pub enum BodyLine {
    /// The line of a card.
    Detail,
    /// The total line of a level.
    Total(Level),
}

/// What the form does after a line.
#[derive(Clone, Copy, Debug, PartialEq, Eq)]
pub enum After {
    /// The next line starts a page.
    Page,
    /// It skips to the next stop of a channel.
    Skip(u16),
}

/// How a field stands on the line of a card.
#[derive(Clone, Copy, Debug, PartialEq, Eq)]
pub enum DetailOption {
    /// On each card, without a mark.
    Plain,
    /// On the first card of each group of a level.
    Indicated(ControlLevel),
    /// With a mark where it is negative.
    Marked(Mark),
}

/// A total that a chart asks for.
#[derive(Clone, Copy, Debug, PartialEq, Eq)]
pub struct TotalLine {
    /// The level of its total line.
    pub level: Level,
    /// Its first wheel.
    pub wheel: u16,
    /// The amount's name.
    pub name: Name,
    /// How many digits it has.
    pub digits: u16,
    /// Its mark if it is negative.
    pub mark: Option<Mark>,
}

/// What one line of a planning chart says. Numbers of columns, digits, wheels, channels and lines are 0 to 999 as a text gives them; the
/// rules judge any.
#[derive(Drop)]
pub enum Statement {
    /// `FIELD`: a field of the cards.
    Field(Field),
    /// `CONTROL`: a control field.
    Control {
        /// The level that it controls.
        level: ControlLevel,
        /// Its name.
        name: Name,
    },
    /// `PRINT`: which lines are printed.
    Print(Printing),
    /// `HEAD`: a literal on a heading line.
    Head {
        /// The heading line.
        line: HeadingLine,
        /// Its first wheel.
        wheel: u16,
        /// The literal.
        literal: Literal,
    },
    /// `DETAIL` with a literal.
    DetailLiteral {
        /// Its first wheel.
        wheel: u16,
        /// The literal.
        literal: Literal,
    },
    /// `DETAIL` with a field.
    DetailField {
        /// Its first wheel.
        wheel: u16,
        /// The field's name.
        name: Name,
        /// How it stands there.
        shown: DetailOption,
    },
    /// `TOTAL` with a literal.
    TotalLiteral {
        /// The level of the total line.
        level: Level,
        /// Its first wheel.
        wheel: u16,
        /// The literal.
        literal: Literal,
    },
    /// `TOTAL` with a control field's text.
    TotalText {
        /// The level of the total line.
        level: Level,
        /// Its first wheel.
        wheel: u16,
        /// The field's name.
        name: Name,
    },
    /// `TOTAL` with a total.
    TotalAmount(TotalLine),
    /// `SPACE`: the spacing of a kind of line.
    Space {
        /// The kind of line.
        line: BodyLine,
        /// Its spacing.
        spacing: Spacing,
    },
    /// `AFTER`: what follows a kind of line.
    After {
        /// The kind of line.
        line: BodyLine,
        /// What follows it.
        action: After,
    },
    /// `FORM`: the form.
    Form {
        /// How many lines it has.
        lines: u16,
        /// Its first line.
        first: u16,
        /// Its overflow line.
        overflow: u16,
    },
    /// `TAPE`: the stops of a channel.
    Tape {
        /// The channel.
        channel: u16,
        /// Its stops.
        stops: Stops,
    },
}
