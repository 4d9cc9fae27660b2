//! How an answer stands in the bytes of a page.

ghost use Rattle.std.specs.Prelude.{◌≡◌, ◌+◌, ◌≤◌, length, true};
ghost use Rattle.browser407.specs.HandsOut.{HandsOut, HandsOutNothing, StandIn};

use crate::bytes::Bytes;
use cli_calls::do_task;
use cli_tasks::Task;
use std::alloc::Global;

/// The status of words that can't be obeyed.
const USAGE: u8 = 2;

/// What the deck is called in a fault.
const DECK: &str = "-";

/// How a call ended. Its answer stands in front in the page's bytes, and what it told right behind that.
#[repr(C)]
#[derive(Drop)]
pub struct Answer {
    /// How many bytes were written.
    pub bytes: usize,
    /// How many bytes were told.
    pub told: usize,
    /// The status, as the program `run407` has it.
    pub status: u8,
    /// Whether the page's bytes have room for both. Else what stands there means nothing.
    pub fits: bool,
}

// Puts two texts into a page's bytes, one right behind the other, and gives whether there was room for them.
fn put_both(text: &[u8], told: &[u8], out: &mut [u8]) -> bool
    ensures long { length out.new ≡ length out.old }
    ensures stand { result ≡ true → StandIn out.new text.now told.now }
    ensures room { length text.now + length told.now ≤ length out.old → result ≡ true }
{
    if text.len() > out.len() || told.len() > out.len() - text.len() {
        return false;
    }
    let (front, rest) = out.split_at_mut(text.len());
    front.copy_from_slice(text);
    let (behind, _) = rest.split_at_mut(told.len());
    behind.copy_from_slice(told);
    true
}

/// Does a task on the texts of a page, and hands out how it ended, what it wrote and what it told.
pub fn answer_task(
    alloc: Global,
    task: Task,
    text: &[u8],
    other: &[u8],
    deck: &[u8],
    out: &mut [u8],
    answer: &mut Answer,
)
    ensures { HandsOut task text.now other.now deck.now out.new answer.new }
{
    let mut written = Bytes::new(alloc);
    let mut told = Bytes::new(alloc);
    let ending = do_task(
        alloc,
        task,
        text,
        other,
        DECK,
        deck,
        false,
        &mut written,
        &mut told,
    );
    let fits = put_both(written.as_slice(), told.as_slice(), out);
    *answer = Answer {
        bytes: written.as_slice().len(),
        told: told.as_slice().len(),
        status: ending.status,
        fits,
    };
}

/// Hands out that there is no such task.
pub fn answer_nothing(answer: &mut Answer)
    ensures { HandsOutNothing answer.new }
{
    *answer = Answer {
        bytes: 0,
        told: 0,
        status: USAGE,
        fits: true,
    };
}
