//! A block of the source.

ghost use Rattle.std.specs.Prelude.{◌≡◌, ◌+◌, ◌-◌, ◌^◌, ◌<◌, ◌≤◌, ℕ, min, List, [], ◌++◌, length, drop, slice_range, IfOk, OnErr};
ghost use Rattle.std.specs.Io.KnownBytes.{IsAtEnd, Keeps, prepend_known};
ghost use Rattle.report_streams.specs.DevicesWords.Devices.{HasFailedBy};

use crate::devices::{DeviceFailed, Source};
use std::marker::Model;

// Room for many lines, so that a read of the system brings many.
const ROOM: usize = 65536;

// The bytes of a block that were not used yet.
#[derive(Drop)]
pub(crate) struct Block {
    bytes: [u8; ROOM],
    from: usize,
    to: usize,
}

impl Model for Block {
    ghost Value = { List ℕ };

    ghost view = { λ block. slice_range block.bytes block.from block.to };

    ghost invariant = { λ block. (block.from ≤ block.to) × (block.to ≤ 65536) };
}

impl Block {
    pub(crate) fn new() -> Self
        ensures { result ≡ [] }
    {
        Block {
            bytes: [0; ROOM],
            from: 0,
            to: 0,
        }
    }

    pub(crate) fn bytes(&self) -> &[u8]
        ensures { result.now ≡ self.now }
    {
        &self.bytes[self.from..self.to]
    }

    // Takes bytes off the front.
    pub(crate) fn use_up(&mut self, count: usize)
        requires { count ≤ length self.old }
        ensures { self.new ≡ drop count self.old }
    {
        self.from += count;
    }

    // Reads once, in the place of a block that was used up; answers how many bytes came. None come only at the end.
    pub(crate) fn read<S: Source>(&mut self, source: &mut S) -> Result<usize, DeviceFailed>
        requires { self.old ≡ [] }
        ensures text { Keeps (S.left source.old) (prepend_known self.new (S.left source.new)) }
        ensures more { IfOk result (λ count. length self.new ≡ count) }
        ensures end { IfOk result (λ count. count ≡ 0 → IsAtEnd (S.left source.new)) }
        ensures kept { OnErr result (self.new ≡ []) }
        ensures counted { S.reads source.new ≡ min (S.reads source.old + 1) (2 ^ 64 - 1) }
        ensures failed { HasFailedBy result (S.has_failed source.old) (S.has_failed source.new) }
        ensures same { S.borrow source.new ≡ S.borrow source.old }
    {
        self.from = 0;
        self.to = 0;
        self.to = source.read(&mut self.bytes)?;
        Ok(self.to)
    }
}
