//! What is told of lines that no form of a chart derives.
//!
//! - `counts`: how many things there are, as people say it
//! - `line_marks`: the lines of a text by their numbers, and the mark under a token
//! - `line_slips`: the slips that people make most
//! - `word_slips`: the first word that no form has
#![tactic(auto)]

pub mod counts;
pub mod line_marks;
pub mod line_slips;
pub mod word_slips;
mod wording;
