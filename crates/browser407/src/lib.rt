//! The commands for a page in a browser: one export for each, over bytes that the page lends.
//!
//! Each export does one task of `cli_tasks` by `do_task` of `cli_calls`, and says so in its contract: `HandsOut` in `specs/HandsOut.antt`. It
//! takes the texts that the task reads, then its numbers, then the bytes `out` that it may write, and where to put an [`Answer`]. It asks
//! nothing of any of them: a text may be any bytes, and a number any number. If an answer has no room in `out`, its lengths are told, and the
//! page calls again with more.
//!
//! What the page owes, nobody checks: each slice lies where its pointer and its length say, slices don't overlap, and `out` and the answer
//! belong to the call alone until it is over. A [`Global`](std::alloc::Global) takes no place among the arguments.
#![tactic(auto)]

mod answer;
mod bytes;
mod fills;
mod guides;
mod panels;
mod reports;
#[cfg(test)]
mod tests;
mod texts;

pub use answer::Answer;
