//! What a command of the command line does, told without any file.
//!
//! [`Task`] is a command with its options and numbers: `cli_words` makes one of words, and `do_task` of `cli_calls` does it.
//! [`Pages::named`], [`page_named`] and [`Fill::named`] read the options that are words of their own.
#![tactic(auto)]

mod fill;
mod pages;
mod task;

pub use fill::Fill;
pub use pages::{Pages, page_named};
pub use task::{Task, check_task, match_task, replay_task, run_task};
