//! A writer of std that is lent, as a sink.

ghost use Rattle.std.specs.Prelude.{◌≡◌, ◌⊎◌, false, true};

use crate::faults::{Fault, unprinted};
use report_streams::devices::{DeviceFailed, Sink};
use std::io::Write;

/// A writer that is lent. It has failed where the writer did, an interrupted call among that, or took none of some bytes, and asks it no
/// more from then on. What is then told of it is kept: want of memory is told as that.
#[derive(Drop)]
pub struct LentWriter<'a, W: Write> {
    writer: &'a mut W,
    // For contracts alone: a writer of std doesn't tell whether it was flushed.
    is_flushed: bool,
    has_failed: bool,
    wants_memory: bool,
}

impl<'a, W: Write> LentWriter<'a, W> {
    /// The writer, which has not failed yet.
    pub fn new(writer: &'a mut W) -> LentWriter<'a, W>
        ensures writer { result.writer ≡ writer.entry }
        ensures well { result.has_failed ≡ false }
    {
        LentWriter {
            writer,
            is_flushed: false,
            has_failed: false,
            wants_memory: false,
        }
    }

    /// What is told where it has failed.
    pub fn told<'b>(&self) -> Fault<'b>
        ensures { (result ≡ Fault.Memory) ⊎ (result ≡ Fault.Write) }
    {
        if self.wants_memory {
            Fault::Memory
        } else {
            Fault::Write
        }
    }

    /// The writer, as it stands.
    pub fn into_writer(self) -> &'a mut W
        ensures { result ≡ self.entry.writer }
    {
        let LentWriter { writer, .. } = self;
        writer
    }

    // Fails from now on.
    fn fail(&mut self, told: Fault) -> DeviceFailed
        ensures failed { self.new.has_failed ≡ true }
        ensures writer { self.new.writer ≡ self.old.writer }
    {
        self.has_failed = true;
        self.wants_memory = matches!(told, Fault::Memory);
        DeviceFailed
    }
}

impl<W: Write> Sink for LentWriter<'_, W> {
    ghost held = { λ sink. W.contents sink.writer.now };

    ghost is_flushed = { λ sink. sink.is_flushed };

    ghost has_failed = { λ sink. sink.has_failed };

    ghost borrow = { λ sink. sink.writer.ghost_name };

    fn write(&mut self, bytes: &[u8]) -> Result<usize, DeviceFailed> {
        if self.has_failed {
            return Err(DeviceFailed);
        }
        match self.writer.write(bytes) {
            Ok(taken) if taken > 0 || bytes.is_empty() => {
                self.is_flushed = false;
                Ok(taken)
            }
            Ok(_) => Err(self.fail(Fault::Write)),
            Err(error) => Err(self.fail(unprinted(&error))),
        }
    }

    fn flush(&mut self) -> Result<(), DeviceFailed> {
        if self.has_failed {
            return Err(DeviceFailed);
        }
        match self.writer.flush() {
            Ok(()) => {
                self.is_flushed = true;
                Ok(())
            }
            Err(error) => Err(self.fail(unprinted(&error))),
        }
    }
}
