//! Planning charts as text: which chart a text reads as, before any rule is asked.
//!
//! [`read_chart`] answers the [`RawChart`] of a text, or the first of its text rules that is broken, as a
//! [`TextFault`]. It stands on `chart_lines`, for what the lines of a chart say, on `card_code`, for the lines of a text and
//! for the characters that a wheel prints, and on `tokens` of `chart_lines`, for the tokens and numbers of a line. Only what reads texts
//! needs this crate: the meaning of charts stands on `chart_lines` alone.
//!
//! The language has two versions, which line 1 tells apart. They have the same lines, but that in version 2 a total that takes
//! two counter groups bears the word COUPLED.
//!
//! `specs/` has the grammar apart from any scanner: literals, forms, whole texts and text rules are relations on
//! lines. That one chart at most fits a text is a law of them. The files `Helper..` there are words of the code alone:
//! no contract that a caller sees speaks of them.
#![tactic(auto)]

mod fault;
mod forms;
mod laws;
mod read;
mod words;

pub use chart_lines::charts::{Name, RawChart};
pub use fault::TextFault;
pub use forms::Said;
pub use laws::{chart_text_is_unambiguous, line_is_unambiguous, read_literals_print};
pub use read::read_chart;
