//! Where bytes come from.

ghost use Rattle.std.specs.Prelude.{◌≡◌, ◌+◌, ◌-◌, ◌^◌, ◌||◌, min, ℕ, Bool, List, Option, Some, true, false, IsErr, IsOk};
ghost use Rattle.std.specs.Io.{ReadsAtMost};
ghost use Rattle.std.specs.Io.KnownBytes.{ReadConsumes};
ghost use Rattle.report_streams.specs.DevicesWords.Devices.{HasFailedBy};

use crate::devices::failed::DeviceFailed;
use std::io;
use std::io::Read;

/// A source of bytes that may fail.
///
/// Contracts see the bytes that it has left, where they are known; how many reads there were, counted up to the largest `u64`; whether the
/// next read may fail; and whether it has failed, which is so after every read that answers an error. One that has failed fails again.
/// Of a source that is borrowed they see which borrow it is, and that it stays that one: so who lends a source knows afterwards what it
/// has left.
pub trait Source {
    ghost left: { Self → Option (List ℕ) };

    ghost reads: { Self → ℕ };

    ghost may_fail: { Self → Bool } = { λ _. true };

    ghost has_failed: { Self → Bool };

    ghost borrow: { Self → ℕ } = { λ _. 0 };

    /// Reads bytes into the front of `bytes` and answers how many; none, where there is room, only at the end.
    ///
    /// # Errors
    ///
    /// Where the device fails. It has failed from then on, and has lost no byte; `bytes` may hold anything.
    fn read(&mut self, bytes: &mut [u8]) -> Result<usize, DeviceFailed>
        ensures bound { ReadsAtMost result bytes.new }
        ensures bytes { ReadConsumes (left self.old) (left self.new) result bytes.new }
        ensures counted { reads self.new ≡ min (reads self.old + 1) (2 ^ 64 - 1) }
        ensures failed { HasFailedBy result (has_failed self.old) (has_failed self.new) }
        ensures sound { may_fail self.old ≡ false → IsOk result }
        ensures again { has_failed self.old ≡ true → IsErr result }
        ensures same { borrow self.new ≡ borrow self.old };
}

/// A reader of which it is known when it may fail.
pub trait KnownReader {
    ghost remaining: { Self → Option (List ℕ) };

    ghost may_fail: { Self → Bool };

    /// Reads as `read` of std does, and fails only if it may.
    fn read_known(&mut self, bytes: &mut [u8]) -> io::Result<usize>
        ensures bound { ReadsAtMost result bytes.new }
        ensures bytes { ReadConsumes (remaining self.old) (remaining self.new) result bytes.new }
        ensures sound { may_fail self.old ≡ false → IsOk result };
}

/// Bytes in memory: their reads never fail.
impl KnownReader for &[u8] {
    ghost remaining = { λ bytes. Some bytes.now };

    ghost may_fail = { λ _. false };

    fn read_known(&mut self, bytes: &mut [u8]) -> io::Result<usize> {
        let given = self.len().min(bytes.len());
        let (front, rest) = self.split_at(given);
        bytes[..given].copy_from_slice(front);
        *self = rest;
        Ok(given)
    }
}

/// A reader of std. It may fail at any time.
#[derive(Drop)]
pub struct AnyReader<R: Read + Drop> {
    reader: R,
}

impl<R: Read + Drop> KnownReader for AnyReader<R> {
    ghost remaining = { λ any. R.remaining any.reader };

    ghost may_fail = { λ _. true };

    fn read_known(&mut self, bytes: &mut [u8]) -> io::Result<usize> {
        self.reader.read(bytes)
    }
}

/// A reader as a source.
///
/// It fails if its reader does, an interrupted read among that, and then at every read, without asking the reader again.
#[derive(Drop)]
pub struct FromKnown<K: KnownReader + Drop> {
    reader: K,
    reads: u64,
    has_failed: bool,
}

/// A reader of std as a source, by `FromRead::new`.
pub type FromRead<R> = FromKnown<AnyReader<R>>;

impl<R: Read + Drop> FromKnown<AnyReader<R>> {
    ghost use Rattle.std.specs.Prelude.{◌≡◌, false};

    /// A source that has all bytes of the reader, was never read and has not failed.
    pub fn new(reader: R) -> FromRead<R>
        ensures reader { result.reader.reader ≡ reader }
        ensures unread { result.reads ≡ 0 }
        ensures well { result.has_failed ≡ false }
    {
        FromKnown::known(AnyReader { reader })
    }
}

impl<K: KnownReader + Drop> FromKnown<K> {
    ghost use Rattle.std.specs.Prelude.{◌≡◌, false};

    /// A source that has all bytes of the reader, was never read and has not failed.
    pub fn known(reader: K) -> FromKnown<K>
        ensures reader { result.reader ≡ reader }
        ensures unread { result.reads ≡ 0 }
        ensures well { result.has_failed ≡ false }
    {
        FromKnown {
            reader,
            reads: 0,
            has_failed: false,
        }
    }
}

impl<K: KnownReader + Drop> Source for FromKnown<K> {
    ghost left = { λ source. K.remaining source.reader };

    ghost reads = { λ source. source.reads };

    ghost may_fail = { λ source. source.has_failed || K.may_fail source.reader };

    ghost has_failed = { λ source. source.has_failed };

    fn read(&mut self, bytes: &mut [u8]) -> Result<usize, DeviceFailed> {
        self.reads = self.reads.saturating_add(1);
        if self.has_failed {
            return Err(DeviceFailed);
        }
        match self.reader.read_known(bytes) {
            Ok(count) => Ok(count),
            Err(_) => {
                self.has_failed = true;
                Err(DeviceFailed)
            }
        }
    }
}

impl<S: Source> Source for &mut S {
    ghost left = { λ source. S.left source.now };

    ghost reads = { λ source. S.reads source.now };

    ghost may_fail = { λ source. S.may_fail source.now };

    ghost has_failed = { λ source. S.has_failed source.now };

    ghost borrow = { λ source. source.ghost_name };

    fn read(&mut self, bytes: &mut [u8]) -> Result<usize, DeviceFailed> {
        Source::read(&mut **self, bytes)
    }
}
