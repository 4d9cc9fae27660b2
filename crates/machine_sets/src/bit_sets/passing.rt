//! Impulses passed on by closed contacts, and led on by the rows of their exits.

ghost use Rattle.std.specs.Prelude.{◌≡◌, ℕ, ◌+◌, ◌<◌, ◌&&◌, nat_lt, true, false, length, All};
ghost use Rattle.machine_sets.specs.BitSets.Contacts.{passes_run, IsRunInRange};
ghost use Rattle.machine_sets.specs.BitSets.Passing.{GainsPassed, IsPassedOn};

use crate::bit_sets::contacts::{Run, first_bits};
use crate::bit_sets::places::{WORDS, put_run, run};
use crate::bit_sets::rows::Rows;

// Adds the places to which closed contacts of the runs lead from those of the set, run by run, and what the rows of these lead to. Answers
// whether there were any that the set did not have.
#[inline(always)]
pub(crate) fn pass_on(
    rows: &Rows,
    runs: &[Run],
    closed: &[u64; WORDS],
    words: &mut [u64; WORDS],
) -> bool
    requires { All IsRunInRange runs.now }
    ensures { IsPassedOn rows.now runs.now closed.now 0 (length runs.now) words.old words.new result }
{
    let mut has_passed = false;
    let mut at = 0;
    while at < runs.len() {
        has_passed |= pass_eight(rows, runs, at, closed, words);
        at += 8;
    }
    has_passed
}

// The same for eight runs from one on, or as many as there are. Eight at a time, so that a compiler that knows the runs makes one piece of
// code of them, without a loop, where each shift is one by a constant: a plain loop takes two to four times as many instructions.
#[inline(always)]
fn pass_eight(
    rows: &Rows,
    runs: &[Run],
    at: usize,
    closed: &[u64; WORDS],
    words: &mut [u64; WORDS],
) -> bool
    requires runs { All IsRunInRange runs.now }
    requires at { at < length runs.now }
    ensures { IsPassedOn rows.now runs.now closed.now at (at + 8) words.old words.new result }
{
    let first = pass_four(rows, runs, at, closed, words);
    let second = pass_four(rows, runs, at + 4, closed, words);
    first | second
}

// The same for four runs.
#[inline(always)]
fn pass_four(
    rows: &Rows,
    runs: &[Run],
    at: usize,
    closed: &[u64; WORDS],
    words: &mut [u64; WORDS],
) -> bool
    requires runs { All IsRunInRange runs.now }
    requires at { at < length runs.now + 4 }
    ensures { IsPassedOn rows.now runs.now closed.now at (at + 4) words.old words.new result }
{
    let first = pass_two(rows, runs, at, closed, words);
    let second = pass_two(rows, runs, at + 2, closed, words);
    first | second
}

// The same for two runs.
#[inline(always)]
fn pass_two(
    rows: &Rows,
    runs: &[Run],
    at: usize,
    closed: &[u64; WORDS],
    words: &mut [u64; WORDS],
) -> bool
    requires runs { All IsRunInRange runs.now }
    requires at { at < length runs.now + 6 }
    ensures { IsPassedOn rows.now runs.now closed.now at (at + 2) words.old words.new result }
{
    let first = pass_one(rows, runs, at, closed, words);
    let second = pass_one(rows, runs, at + 1, closed, words);
    first | second
}

// The same for one run, if there is such a one.
#[inline(always)]
fn pass_one(
    rows: &Rows,
    runs: &[Run],
    at: usize,
    closed: &[u64; WORDS],
    words: &mut [u64; WORDS],
) -> bool
    requires { All IsRunInRange runs.now }
    ensures { IsPassedOn rows.now runs.now closed.now at (at + 1) words.old words.new result }
{
    if at < runs.len() {
        pass_run(rows, runs[at], closed, words)
    } else {
        false
    }
}

// Adds the places that the set does not have, and to which closed contacts of a run lead from those that it has, and what the rows of these
// lead to. Answers whether there were any.
#[inline(always)]
fn pass_run(rows: &Rows, contacts: Run, closed: &[u64; WORDS], words: &mut [u64; WORDS]) -> bool
    requires { IsRunInRange contacts }
    ensures gains { GainsPassed rows.now (λ place. nat_lt place 1984 && passes_run closed.now words.old contacts place) words.old words.new }
    ensures some { result ≡ true → (place : ℕ) × ((nat_lt place 1984 && passes_run closed.now words.old contacts place) ≡ true) }
    ensures none { result ≡ false → (place : ℕ) → (nat_lt place 1984 && passes_run closed.now words.old contacts place) ≡ false }
{
    let impulsed = run(words, contacts.common) & first_bits(contacts.count);
    if impulsed == 0 {
        return false;
    }
    let bits = impulsed & run(closed, contacts.exits) & !run(words, contacts.exits);
    if bits == 0 {
        return false;
    }
    put_run(words, contacts.exits, bits);
    rows.join_run(contacts.exits, bits, words);
    true
}
