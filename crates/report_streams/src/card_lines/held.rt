//! What was read and not given yet.

ghost use Rattle.std.specs.Prelude.{◌≡◌, ◌≢◌, ◌+◌, ◌-◌, ◌^◌, ◌<◌, ◌≤◌, ◌⊎◌, ℕ, min, List, [], ◌++◌, length, drop, slice_index, take, IfOk, OnErr};
ghost use Rattle.std.specs.Io.KnownBytes.{IsAtEnd, Keeps, prepend_known};
ghost use Rattle.arrayvec.specs.ArrayVec.{array_vec_len};
ghost use Rattle.report_streams.specs.DevicesWords.Devices.{HasFailedBy};
ghost use Rattle.report_streams.specs.CardLines.Front.{IsCut, IsFront, IsPart, line_end};

use crate::card_lines::block::Block;
use crate::card_lines::front::{Front, first_line_feed};
use crate::devices::{DeviceFailed, Source};
use arrayvec::ArrayVec;
use std::marker::Model;

// The most bytes of a card's line before its LF: 80 characters and a CR.
const LONGEST: usize = 81;

// The bytes held: those of the line being read that came and have room, without its LF, and what the block that they were cut from has
// behind them.
#[derive(Drop)]
pub(crate) struct Held {
    line: ArrayVec<u8, LONGEST>,
    block: Block,
}

impl Model for Held {
    ghost Value = { List ℕ };

    ghost view = { λ held. held.line.items ++ held.block };

    ghost invariant = { λ held. IsCut held.line.items held.block };
}

impl Held {
    pub(crate) fn new() -> Self
        ensures { result ≡ [] }
    {
        Held {
            line: ArrayVec::new(),
            block: Block::new(),
        }
    }

    // What stands at the front.
    pub(crate) fn front(&self) -> Front
        ensures { IsFront self.now result }
    {
        let line = self.line.as_slice();
        match self.block.bytes().first() {
            Some(b'\n') => Front::Line,
            Some(_) => Front::TooLong,
            None if line.len() == LONGEST && line[LONGEST - 1] != b'\r' => Front::TooLong,
            None => Front::Part,
        }
    }

    // The line at the front without its LF, where it isn't too long.
    pub(crate) fn line(&self) -> &[u8]
        ensures { line_end self.now ≤ LONGEST → result.now ≡ take (line_end self.now) self.now }
    {
        self.line.as_slice()
    }

    // Takes the line at the front off, with its LF if it has one, and cuts the next one.
    pub(crate) fn use_up_line(&mut self)
        requires { line_end self.old ≤ LONGEST }
        ensures { self.new ≡ drop (line_end self.old + 1) self.old }
    {
        // A new one is faster than to clear the old one, which writes byte by byte.
        self.line = ArrayVec::new();
        if !self.block.bytes().is_empty() {
            self.block.use_up(1);
        }
        cut(&mut self.line, &mut self.block);
    }

    // Reads once, where a part of a line is held, which goes on with what comes; answers how many bytes came. None come only at the end.
    pub(crate) fn read_more<S: Source>(&mut self, source: &mut S) -> Result<usize, DeviceFailed>
        requires { IsPart self.old }
        ensures text { Keeps (prepend_known self.old (S.left source.old)) (prepend_known self.new (S.left source.new)) }
        ensures more { IfOk result (λ count. length self.new ≡ length self.old + count) }
        ensures end { IfOk result (λ count. count ≡ 0 → IsAtEnd (S.left source.new)) }
        ensures none { IfOk result (λ count. count ≡ 0 → self.new ≡ self.old) }
        ensures kept { OnErr result (self.new ≡ self.old) }
        ensures counted { S.reads source.new ≡ min (S.reads source.old + 1) (2 ^ 64 - 1) }
        ensures failed { HasFailedBy result (S.has_failed source.old) (S.has_failed source.new) }
        ensures same { S.borrow source.new ≡ S.borrow source.old }
    {
        let count = self.block.read(source)?;
        cut(&mut self.line, &mut self.block);
        Ok(count)
    }
}

// Moves bytes from the front of a block to the line that they go on with: those before the first LF, as many as have room.
fn cut(line: &mut ArrayVec<u8, LONGEST>, block: &mut Block)
    requires { (place : ℕ) → place < array_vec_len line.old → slice_index line.old.items place ≢ 10 }
    ensures text { line.new.items ++ block.new ≡ line.old.items ++ block.old }
    ensures cut { IsCut line.new.items block.new }
{
    let count = go_on(line, block.bytes());
    block.use_up(count);
}

// Lets a line go on with the first of some bytes: those before the first LF, as many as have room. Answers how many.
fn go_on(line: &mut ArrayVec<u8, LONGEST>, bytes: &[u8]) -> usize
    ensures within { result ≤ length bytes.now }
    ensures few { array_vec_len line.new ≤ LONGEST }
    ensures copied { line.new.items ≡ line.old.items ++ take result bytes.now }
    ensures unended { (place : ℕ) → place < result → slice_index bytes.now place ≢ 10 }
    ensures whole { result < length bytes.now → (slice_index bytes.now result ≡ 10) ⊎ (array_vec_len line.new ≡ LONGEST) }
{
    let front = &bytes[..bytes.len().min(line.remaining_capacity())];
    let count = first_line_feed(front).unwrap_or(front.len());
    // It has room for them.
    let _ = line.try_extend_from_slice(&front[..count]);
    count
}
