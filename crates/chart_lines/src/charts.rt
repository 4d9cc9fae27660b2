//! What a planning chart says, apart from how it is spelled.
//!
//! A [`RawChart`] keeps the lines of a chart that say something, each with its number and a [`Statement`], and the number
//! of the line END; its [`Version`], and which totals have the word COUPLED, stand beside them. No statement speaks of that, so that charts
//! of both versions mean the same by the same lines. Statements speak of fields, items of lines, forms and tapes; levels, heading lines, spacings, names,
//! literals and stops are types that hold no other values than a chart can have. All that charts mean, by their rules,
//! plans, reports and wires, is said of these values and not of a text: how a text reads as a chart is the subject of
//! `chart_text`. This module stands on `card_code`, for the characters that a wheel prints.
//!
//! `specs/` has the words for these values that contracts of all crates above use.

mod chart;
mod heading;
mod level;
mod name;
mod spacing;
mod statement;

pub use chart::{Line, RawChart, Version};
pub use heading::HeadingLine;
pub use level::{ControlLevel, Level};
pub use name::Name;
pub use spacing::Spacing;
pub use statement::{
    After, BodyLine, DetailOption, Field, FieldKind, Literal, MAX_LITERAL, MAX_STOPS, Mark,
    Printing, SignRule, Statement, Stops, TotalLine,
};
