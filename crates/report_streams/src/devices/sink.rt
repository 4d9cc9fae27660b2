//! Where bytes go to.

ghost use Rattle.std.specs.Prelude.{◌≡◌, ◌<◌, ℕ, Bool, List, Option, ◌||◌, length, true, false, IfOk, IsErr, IsOk, IsOkAnd, OnOk};
ghost use Rattle.std.specs.Io.{WritesAtMost};
ghost use Rattle.std.specs.Io.KnownBytes.{Keeps, WriteAppends};
ghost use Rattle.report_streams.specs.DevicesWords.Devices.{HasFailedBy};

use crate::devices::failed::DeviceFailed;
use std::io;
use std::io::Write;

/// A sink of bytes that may fail.
///
/// Contracts see the bytes that it holds, where they are known; whether it was flushed after the last byte that it took; whether the next
/// write or flush may fail; and whether it has failed, which is so after every call that answers an error. One that has failed fails
/// again. Of a sink that is borrowed they see which borrow it is, and that it stays that one: so who lends a sink to a writer knows
/// afterwards what it holds.
pub trait Sink {
    ghost held: { Self → Option (List ℕ) };

    ghost is_flushed: { Self → Bool };

    ghost may_fail: { Self → Bool } = { λ _. true };

    ghost may_fail_to_flush: { Self → Bool } = { λ _. true };

    ghost has_failed: { Self → Bool };

    ghost borrow: { Self → ℕ } = { λ _. 0 };

    /// Takes bytes from the front of `bytes` and answers how many: one at least, where there is one.
    ///
    /// # Errors
    ///
    /// Where the device fails or takes none of some bytes. It has failed from then on, and holds what it held.
    fn write(&mut self, bytes: &[u8]) -> Result<usize, DeviceFailed>
        ensures bound { WritesAtMost result bytes.now }
        ensures some { IfOk result (λ taken. 0 < length bytes.now → 0 < taken) }
        ensures bytes { WriteAppends (held self.old) (held self.new) result bytes.now }
        ensures unflushed { IfOk result (λ taken. 0 < taken → is_flushed self.new ≡ false) }
        ensures sound { may_fail self.old ≡ false → IsOk result }
        ensures failed { HasFailedBy result (has_failed self.old) (has_failed self.new) }
        ensures again { has_failed self.old ≡ true → IsErr result }
        ensures same { borrow self.new ≡ borrow self.old };

    /// Hands on all that was taken.
    ///
    /// # Errors
    ///
    /// Where the device fails. It has failed from then on, and holds what it held.
    fn flush(&mut self) -> Result<(), DeviceFailed>
        ensures bytes { Keeps (held self.old) (held self.new) }
        ensures flushed { OnOk result (is_flushed self.new ≡ true) }
        ensures sound { may_fail_to_flush self.old ≡ false → IsOk result }
        ensures failed { HasFailedBy result (has_failed self.old) (has_failed self.new) }
        ensures again { has_failed self.old ≡ true → IsErr result }
        ensures same { borrow self.new ≡ borrow self.old };
}

/// A writer of which it is known when it may fail, and whether it was flushed.
pub trait KnownWriter {
    ghost contents: { Self → Option (List ℕ) };

    ghost is_flushed: { Self → Bool };

    ghost may_fail: { Self → Bool };

    ghost may_fail_to_flush: { Self → Bool };

    /// Writes as `write` of std does; it fails, or takes none of some bytes, only if it may.
    fn write_known(&mut self, bytes: &[u8]) -> io::Result<usize>
        ensures bound { WritesAtMost result bytes.now }
        ensures bytes { WriteAppends (contents self.old) (contents self.new) result bytes.now }
        ensures unflushed { IfOk result (λ taken. 0 < taken → is_flushed self.new ≡ false) }
        ensures sound { may_fail self.old ≡ false → IsOkAnd result (λ taken. 0 < length bytes.now → 0 < taken) };

    /// Flushes as `flush` of std does, and fails only if it may.
    fn flush_known(&mut self) -> io::Result<()>
        ensures bytes { Keeps (contents self.old) (contents self.new) }
        ensures flushed { OnOk result (is_flushed self.new ≡ true) }
        ensures sound { may_fail_to_flush self.old ≡ false → IsOk result };
}

impl<K: KnownWriter> KnownWriter for &mut K {
    ghost contents = { λ writer. K.contents writer.now };

    ghost is_flushed = { λ writer. K.is_flushed writer.now };

    ghost may_fail = { λ writer. K.may_fail writer.now };

    ghost may_fail_to_flush = { λ writer. K.may_fail_to_flush writer.now };

    fn write_known(&mut self, bytes: &[u8]) -> io::Result<usize> {
        KnownWriter::write_known(&mut **self, bytes)
    }

    fn flush_known(&mut self) -> io::Result<()> {
        KnownWriter::flush_known(&mut **self)
    }
}

/// A writer of std. It may fail at any time.
#[derive(Drop)]
pub struct AnyWriter<W: Write + Drop> {
    writer: W,
    // For contracts alone: those of std don't tell whether a writer was flushed.
    is_flushed: bool,
}

impl<W: Write + Drop> KnownWriter for AnyWriter<W> {
    ghost contents = { λ any. W.contents any.writer };

    ghost is_flushed = { λ any. any.is_flushed };

    ghost may_fail = { λ _. true };

    ghost may_fail_to_flush = { λ _. true };

    fn write_known(&mut self, bytes: &[u8]) -> io::Result<usize> {
        self.is_flushed = false;
        self.writer.write(bytes)
    }

    fn flush_known(&mut self) -> io::Result<()> {
        self.writer.flush()?;
        self.is_flushed = true;
        Ok(())
    }
}

/// A writer as a sink.
///
/// It fails if its writer does, an interrupted call among that, or takes none of some bytes, and then at every call, without asking
/// the writer again.
#[derive(Drop)]
pub struct ToKnown<K: KnownWriter + Drop> {
    writer: K,
    has_failed: bool,
}

/// A writer of std as a sink, by `ToWrite::new`.
pub type ToWrite<W> = ToKnown<AnyWriter<W>>;

impl<W: Write + Drop> ToKnown<AnyWriter<W>> {
    ghost use Rattle.std.specs.Prelude.{◌≡◌, false};

    /// A sink that holds what the writer holds and has not failed.
    pub fn new(writer: W) -> ToWrite<W>
        ensures writer { result.writer.writer ≡ writer }
        ensures well { result.has_failed ≡ false }
    {
        ToKnown::known(AnyWriter {
            writer,
            is_flushed: false,
        })
    }
}

impl<K: KnownWriter + Drop> ToKnown<K> {
    ghost use Rattle.std.specs.Prelude.{◌≡◌, false};

    /// A sink that holds what the writer holds and has not failed.
    pub fn known(writer: K) -> ToKnown<K>
        ensures writer { result.writer ≡ writer }
        ensures well { result.has_failed ≡ false }
    {
        ToKnown {
            writer,
            has_failed: false,
        }
    }
}

impl<K: KnownWriter + Drop> Sink for ToKnown<K> {
    ghost held = { λ sink. K.contents sink.writer };

    ghost is_flushed = { λ sink. K.is_flushed sink.writer };

    ghost may_fail = { λ sink. sink.has_failed || K.may_fail sink.writer };

    ghost may_fail_to_flush = { λ sink. sink.has_failed || K.may_fail_to_flush sink.writer };

    ghost has_failed = { λ sink. sink.has_failed };

    fn write(&mut self, bytes: &[u8]) -> Result<usize, DeviceFailed> {
        if self.has_failed {
            return Err(DeviceFailed);
        }
        match self.writer.write_known(bytes) {
            Ok(taken) if taken > 0 || bytes.is_empty() => Ok(taken),
            _ => {
                self.has_failed = true;
                Err(DeviceFailed)
            }
        }
    }

    fn flush(&mut self) -> Result<(), DeviceFailed> {
        if self.has_failed {
            return Err(DeviceFailed);
        }
        let is_flushed = self.writer.flush_known().is_ok();
        self.has_failed = !is_flushed;
        if is_flushed {
            Ok(())
        } else {
            Err(DeviceFailed)
        }
    }
}

impl<S: Sink> Sink for &mut S {
    ghost held = { λ sink. S.held sink.now };

    ghost is_flushed = { λ sink. S.is_flushed sink.now };

    ghost may_fail = { λ sink. S.may_fail sink.now };

    ghost may_fail_to_flush = { λ sink. S.may_fail_to_flush sink.now };

    ghost has_failed = { λ sink. S.has_failed sink.now };

    ghost borrow = { λ sink. sink.ghost_name };

    fn write(&mut self, bytes: &[u8]) -> Result<usize, DeviceFailed> {
        Sink::write(&mut **self, bytes)
    }

    fn flush(&mut self) -> Result<(), DeviceFailed> {
        Sink::flush(&mut **self)
    }
}
