//! The words of the command line: which task of `cli_tasks` they ask for, and on which files. The parser is `clap`'s, and no other crate
//! knows it.
//!
//! [`read_words`] answers what is [`Wanted`], or why nothing is, with the parser's own text told already.
#![tactic(auto)]

mod parser;
mod wanted;

pub use wanted::{Refused, Wanted, read_words};
