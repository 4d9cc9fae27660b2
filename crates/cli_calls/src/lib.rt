//! The calls that do the tasks of the command line: one function from a task to its call, over texts, a reader and writers that are handed in.
//!
//! [`do_task`] is that function; its contract is a table, `Does` in `specs/Does.antt`. It opens no file and knows nothing of the words that a
//! task was made of: the program `run407` hands in what they name. Whatever else offers the commands calls it too.
//!
//! - `whole_runs`: the pages of a deck, once it has run whole
//! - `browser_pages`: a report as a page for a browser
#![tactic(auto)]

pub mod browser_pages;
mod doing;
mod shown;
pub mod whole_runs;

pub use doing::do_task;
