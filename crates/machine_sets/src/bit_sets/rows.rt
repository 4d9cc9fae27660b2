//! Rows of places: which places each place leads to.

ghost use Rattle.std.specs.Prelude.{◌≡◌, ℕ, ◌<◌, ◌*◌, ◌&&◌, nat_lt};
ghost use Rattle.machine_sets.specs.BitSets.Bits.{has_place, is_in_run};

use crate::bit_sets::bits::low_word;
use crate::bit_sets::bundles::{LEAST, MOST, follow_runs, is_in_runs};
use crate::bit_sets::contacts::Run;
use crate::bit_sets::joins::{ROW_WORDS, join};
use crate::bit_sets::places::{PLACES, WORDS, has, has_in, put, put_run, put_where};
use crate::bit_sets::shorts::{Short, short_of};
use std::alloc::{AllocError, Global};
use std::marker::Model;

/// How many places have a row: those below 1040.
pub const EXITS: usize = 1040;

/// Rows of places. A row of a place below 1040 has places from 1040 to 1983.
#[derive(Drop)]
pub struct Rows {
    // The places whose row has any place.
    marked: [u64; WORDS],
    // The places whose row has a place that the runs don't lead to.
    apart: [u64; WORDS],
    // Wires side by side. The rows have them too.
    runs: Vec<Run>,
    // The rows of few words as these words, in the same order, once the wires are bundled.
    shorts: Vec<Short>,
    // The rows in the order of the places that have them. A row stands for the places from 1024 on.
    rows: Vec<[u64; ROW_WORDS]>,
}

impl Model for Rows {
    ghost use Rattle.std.specs.Prelude.{List, ℕ};
    ghost use Rattle.machine_sets.specs.BitSets.Bundles.{AreRows};

    ghost Value = { List (List ℕ) };

    ghost view = { λ rows. rows.rows.items };

    ghost invariant = { λ rows. AreRows rows.marked rows.apart rows.runs.items rows.shorts.items rows.rows.items };
}

impl Rows {
    ghost use Rattle.std.specs.Prelude.{◌≡◌, ℕ, ◌+◌, ◌*◌, ◌<◌, ◌≤◌, ◌⊎◌, ◌==◌, ◌&&◌, ◌||◌, true, false, length, All, IfOk, IfSome, OnOk};
    ghost use Rattle.machine_sets.specs.BitSets.Bits.{has_place, is_in_run};
    ghost use Rattle.machine_sets.specs.BitSets.Bundles.{AreCovered, IsBundle};
    ghost use Rattle.machine_sets.specs.BitSets.Contacts.{is_any_contact};
    ghost use Rattle.machine_sets.specs.BitSets.Rows.{leads, is_in_words, GainsLed};
    ghost use Rattle.machine_sets.specs.BitSets.Shorts.{AreShorts};

    /// Empty rows.
    pub fn new(alloc: Global) -> Result<Rows, AllocError>
        ensures long { IfOk result (λ rows. length rows ≡ EXITS) }
        ensures empty { IfOk result (λ rows. (from to : ℕ) → leads rows from to ≡ false) }
    {
        let mut rows = Vec::new(alloc);
        for _exit in 0..EXITS {
            rows.push([0; ROW_WORDS])?;
        }
        Ok(Rows {
            marked: [0; WORDS],
            apart: [0; WORDS],
            runs: Vec::new(alloc),
            shorts: Vec::new(alloc),
            rows,
        })
    }

    /// Adds a place to the row of another.
    pub fn add(&mut self, from: usize, to: usize)
        requires row { from < length self.old }
        requires low { 1040 ≤ to }
        requires high { to < 1984 }
        ensures long { length self.new ≡ length self.old }
        ensures added { (f t : ℕ) → leads self.new f t ≡ (leads self.old f t || ((f == from) && (t == to))) }
    {
        self.shorts.clear();
        put(&mut self.rows[from], to - 1024);
        put(&mut self.marked, from);
        put(&mut self.apart, from);
    }

    /// Notes wires side by side, so that many of them are followed at once, and rows of few words. Nothing leads to other places than before.
    pub fn bundle(&mut self, alloc: Global) -> Result<(), AllocError>
        ensures { self.new ≡ self.old }
    {
        let runs = self.bundled(alloc)?;
        let shorts = self.shortened(alloc)?;
        self.apart = self.set_apart(&runs);
        self.runs = runs;
        self.shorts = shorts;
        Ok(())
    }

    // Adds to a set what its places lead to. Only the first words have places with a row.
    #[inline(always)]
    pub(crate) fn join_own(&self, words: &mut [u64; WORDS])
        ensures gains { GainsLed self.now (has_place words.old) words.old words.new }
        ensures short { length self.now ≤ EXITS }
    {
        for block in 0..4 {
            self.join_four(4 * block, words);
        }
        self.join_word(16, words);
    }

    // Adds what the places of four words of a set lead to.
    #[inline(always)]
    fn join_four(&self, at: usize, words: &mut [u64; WORDS])
        requires { at + 4 ≤ 16 }
        ensures { GainsLed self.now (is_in_words at (at + 4) words.old) words.old words.new }
    {
        self.join_word(at, words);
        self.join_word(at + 1, words);
        self.join_word(at + 2, words);
        self.join_word(at + 3, words);
    }

    // Adds what the places of a word of a set lead to. Most words have none that is marked.
    #[inline(always)]
    fn join_word(&self, number: usize, words: &mut [u64; WORDS])
        requires { number < 17 }
        ensures gains { GainsLed self.now (is_in_words number (number + 1) words.old) words.old words.new }
        ensures short { length self.now ≤ EXITS }
    {
        if words[number] & self.marked[number] != 0 {
            self.join_marked(number, words);
        }
    }

    // Adds what the marked places of a word of a set lead to: by runs where they save rows.
    fn join_marked(&self, number: usize, words: &mut [u64; WORDS])
        requires { number < 17 }
        ensures { GainsLed self.now (is_in_words number (number + 1) words.old) words.old words.new }
    {
        let bits = words[number] & self.marked[number];
        let apart = bits & self.apart[number];
        let by_runs = bits & !self.apart[number];
        if by_runs.count_ones() as usize > self.runs.len() {
            follow_runs(&self.runs, &set_of_word(number, bits), words);
            self.join_bits(64 * number, apart, words);
        } else {
            self.join_bits(64 * number, bits, words);
        }
    }

    // Adds what a row of up to 128 places that follow one another leads to: bit k stands for the place that is k after the first one.
    #[inline(always)]
    pub(crate) fn join_run(&self, first: usize, bits: u128, words: &mut [u64; WORDS])
        requires { first < PLACES }
        ensures { GainsLed self.now (is_in_run first bits) words.old words.new }
    {
        self.join_some(first, low_word(bits), words);
        self.join_some(first + 64, low_word(bits >> 64), words);
    }

    // Adds what the places of a word lead to, if it has any.
    #[inline(always)]
    fn join_some(&self, first: usize, bits: u64, words: &mut [u64; WORDS])
        requires { first ≤ 2048 }
        ensures { GainsLed self.now (is_in_run first bits) words.old words.new }
    {
        if bits != 0 {
            self.join_bits(first, bits, words);
        }
    }

    // Adds what the places of a word lead to, of which the first stands for `first`.
    fn join_bits(&self, first: usize, bits: u64, words: &mut [u64; WORDS])
        requires { first ≤ 2048 }
        ensures { GainsLed self.now (is_in_run first bits) words.old words.new }
    {
        let mut left = bits;
        while left != 0 {
            let bit = left.trailing_zeros() as usize;
            left &= !(1 << bit);
            self.join_place(first + bit, words);
        }
    }

    // Adds what a place leads to: by the words of its row where these are few.
    #[inline(always)]
    fn join_place(&self, from: usize, words: &mut [u64; WORDS])
        ensures { GainsLed self.now (λ place. place == from) words.old words.new }
    {
        if from < self.shorts.len() && self.shorts[from].is_whole {
            let short = &self.shorts[from];
            words[short.first] |= short.first_bits;
            words[short.last] |= short.last_bits;
        } else {
            self.join_row(from, words);
        }
    }

    // Adds what a place leads to, by its row.
    fn join_row(&self, from: usize, words: &mut [u64; WORDS])
        ensures { GainsLed self.now (λ place. place == from) words.old words.new }
    {
        if from < self.rows.len() {
            join(words, &self.rows[from]);
        }
    }

    // The rows of few words.
    fn shortened(&self, alloc: Global) -> Result<Vec<Short>, AllocError>
        ensures { IfOk result (λ shorts. AreShorts shorts.items self.now) }
    {
        let mut shorts = Vec::new(alloc);
        for from in 0..self.rows.len() {
            shorts.push(short_of(&self.rows[from]))?;
        }
        Ok(shorts)
    }

    // Whether one place leads to another.
    fn leads(&self, from: usize, to: usize) -> bool
        ensures { result ≡ leads self.now from to }
    {
        if from < self.rows.len() {
            1024 <= to && has_in(&self.rows[from], to - 1024)
        } else {
            false
        }
    }

    // Runs of wires side by side, up to so many as are kept.
    fn bundled(&self, alloc: Global) -> Result<Vec<Run>, AllocError>
        ensures { IfOk result (λ runs. All (IsBundle self.now) runs.items) }
    {
        let mut runs = Vec::new(alloc);
        for from in 0..EXITS {
            self.bundle_row(from, &mut runs)?;
        }
        Ok(runs)
    }

    // Adds the runs whose first wires lead from this place.
    fn bundle_row(&self, from: usize, runs: &mut Vec<Run>) -> Result<(), AllocError>
        requires row { from < EXITS }
        requires runs { All (IsBundle self.now) runs.old.items }
        ensures { OnOk result (All (IsBundle self.now) runs.new.items) }
    {
        if !has(&self.marked, from) {
            return Ok(());
        }
        for to in EXITS..PLACES {
            if runs.len() >= MOST {
                return Ok(());
            }
            if let Some(run) = self.bundle_from(from, to) {
                runs.push(run)?;
            }
        }
        Ok(())
    }

    // The run that begins with the wire from one place to another: none where it is too short, or begins before.
    fn bundle_from(&self, from: usize, to: usize) -> Option<Run>
        requires from { from < EXITS }
        requires low { EXITS ≤ to }
        requires high { to < PLACES }
        ensures { IfSome result (IsBundle self.now) }
    {
        if !self.leads(from, to) || (from > 0 && self.leads(from - 1, to - 1)) {
            return None;
        }
        let run = self.side_by_side(from, to);
        if run.count >= LEAST { Some(run) } else { None }
    }

    // The wires side by side from one on, up to 128.
    fn side_by_side(&self, from: usize, to: usize) -> Run
        requires from { from < PLACES }
        requires to { to < PLACES }
        ensures { IsBundle self.now result }
    {
        let mut count = 0;
        while count < 128 && self.leads(from + count, to + count) {
            count += 1;
        }
        Run {
            common: from,
            exits: to,
            count,
        }
    }

    // The places whose row has a place that the runs don't lead to.
    fn set_apart(&self, runs: &[Run]) -> [u64; WORDS]
        ensures { AreCovered result runs.now self.now }
    {
        let mut apart = [0; WORDS];
        for from in 0..self.rows.len() {
            put_where(&mut apart, from, !self.is_covered(from, runs));
        }
        apart
    }

    // Whether the runs lead to each place of a row.
    fn is_covered(&self, from: usize, runs: &[Run]) -> bool
        ensures { result ≡ true → (to : ℕ) → leads self.now from to ≡ true → is_any_contact runs.now from to ≡ true }
    {
        if !has(&self.marked, from) {
            return true;
        }
        for to in EXITS..PLACES {
            if self.leads(from, to) && !is_in_runs(runs, from, to) {
                return false;
            }
        }
        true
    }
}

// A set that has the places of a word, and no other.
fn set_of_word(number: usize, bits: u64) -> [u64; WORDS]
    requires { number < 17 }
    ensures { (place : ℕ) → has_place result place ≡ (nat_lt place 1984 && is_in_run (64 * number) bits place) }
{
    let mut words = [0; WORDS];
    put_run(&mut words, 64 * number, u128::from(bits));
    words
}
