//! The tokens of a line, for text formats whose lines are words, numbers and literals.
//!
//! [`split_line`] divides a line into its tokens: only a space divides, and a token may stand between
//! apostrophes, spaces and all. [`read_number`] and [`read_number_to`] answer the number that a token
//! is, and [`is`] whether it is a given word.
//!
//! The text formats share a frame: [`is_larger`] tells a text that is too large for its format, [`is_title_line`] the line
//! that names a format and its version, and [`is_end_line`] the line that ends a text. [`Content`] is what a line after the
//! first ones is.
//! Lines are those of `card_code`; this module stands on no other of this repository.
//!
//! `specs/` has the grammar apart from any scanner: `HasTokens`, `IsNumber` and `IsNumberTo` are relations,
//! and what a reader answers is exactly what is related. `Frame` has what the text formats share: the size of a text, its first
//! line, its empty lines, its END, the line at a number, and what stands after END. That a line has one list of tokens at most, and
//! a token is one number at most, is a law of them. The files `Dividing`, `Steps`, `NumberReading` and `FrameReading`
//! have the same as functions: the clauses named `value` say by them what is read, for the crates that read forms by it, and `is_space`
//! of `Dividing` says with which word a text begins. `HelperLines` has the content of a line by its tokens.

mod frame;
mod laws;
mod line;
mod number;
mod word;

pub use frame::{Content, is_end_line, is_larger, is_title_line};
pub use laws::tokens_are_unambiguous;
pub use line::split_line;
pub use number::{read_number, read_number_to};
pub use word::is;
