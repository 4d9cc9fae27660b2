//! Readers and writers of std over memory, for tests: they give or take a few bytes a call, and fail at a call of their number.

ghost use Rattle.std.specs.Prelude.{◌≡◌, ◌<◌, Some, [], true};
ghost use Rattle.report_streams.specs.DevicesWords.Devices.{is_next};
ghost use Rattle.report_streams.specs.DevicesWords.Limited.{fails_to_flush};

use crate::devices::sink::KnownWriter;
use crate::devices::source::KnownReader;
use std::alloc::Global;
use std::io;
use std::io::{ErrorKind, Read, Write};

/// A reader over memory that gives at most so many bytes a call.
#[derive(Drop)]
pub struct LimitedReader<'a> {
    bytes: &'a [u8],
    most: usize,
    fails_at: Option<u64>,
    calls: u64,
    ghost some: { 0 < most },
}

impl<'a> LimitedReader<'a> {
    /// A reader of these bytes that gives at most `most` of them a call, one or more. The call of the number `fails_at`, from 1, fails;
    /// those after it go on.
    pub fn new(bytes: &'a [u8], most: usize, fails_at: Option<u64>) -> LimitedReader<'a>
        requires { 0 < most }
        ensures bytes { result.bytes.now ≡ bytes.now }
        ensures most { result.most ≡ most }
        ensures fails_at { result.fails_at ≡ fails_at }
        ensures uncalled { result.calls ≡ 0 }
    {
        LimitedReader {
            bytes,
            most,
            fails_at,
            calls: 0,
        }
    }

    /// How many calls there were, the one that failed among them.
    pub fn calls(&self) -> u64
        ensures { result ≡ self.now.calls }
    {
        self.calls
    }
}

impl Read for LimitedReader<'_> {
    ghost remaining = { λ reader. Some reader.bytes.now };

    fn read(&mut self, buf: &mut [u8]) -> io::Result<usize> {
        self.read_known(buf)
    }
}

impl KnownReader for LimitedReader<'_> {
    ghost remaining = { λ reader. Some reader.bytes.now };

    ghost may_fail = { λ reader. is_next reader.fails_at reader.calls };

    fn read_known(&mut self, buf: &mut [u8]) -> io::Result<usize> {
        self.calls = self.calls.saturating_add(1);
        if self.fails_at == Some(self.calls) {
            return Err(io::Error::from(ErrorKind::Other));
        }
        let room = buf.len().min(self.most);
        self.bytes.read_known(&mut buf[..room])
    }
}

/// Where a writer over memory stops. The calls after it go on.
#[derive(Clone, Copy, Debug, PartialEq, Eq)]
pub enum Stop {
    /// The write of this number, from 1, fails.
    Fails { write: u64 },
    /// The write of this number, from 1, takes no byte.
    TakesNone { write: u64 },
    /// Each flush fails.
    FailsToFlush,
}

/// A writer over memory that takes at most so many bytes a call.
#[derive(Drop)]
pub struct LimitedWriter {
    bytes: Vec<u8>,
    most: usize,
    stop: Option<Stop>,
    writes: u64,
    flushes: u64,
    is_flushed: bool,
}

impl LimitedWriter {
    /// A writer that holds nothing, takes at most `most` bytes a call, and stops where `stop` says. It also fails where no memory is left.
    pub fn new(alloc: Global, most: usize, stop: Option<Stop>) -> LimitedWriter
        ensures bytes { result.bytes.items ≡ [] }
        ensures most { result.most ≡ most }
        ensures stop { result.stop ≡ stop }
        ensures unwritten { result.writes ≡ 0 }
        ensures unflushed { result.flushes ≡ 0 }
    {
        LimitedWriter {
            bytes: Vec::new(alloc),
            most,
            stop,
            writes: 0,
            flushes: 0,
            is_flushed: false,
        }
    }

    /// The bytes that it holds.
    pub fn bytes(&self) -> &[u8]
        ensures { result.now ≡ self.now.bytes.items }
    {
        self.bytes.as_slice()
    }

    /// How many writes there were, also those that failed.
    pub fn writes(&self) -> u64
        ensures { result ≡ self.now.writes }
    {
        self.writes
    }

    /// How many flushes there were, also those that failed.
    pub fn flushes(&self) -> u64
        ensures { result ≡ self.now.flushes }
    {
        self.flushes
    }

    /// Whether it was flushed after the last byte that it took.
    pub fn is_flushed(&self) -> bool
        ensures { result ≡ self.now.is_flushed }
    {
        self.is_flushed
    }
}

impl Write for LimitedWriter {
    ghost contents = { λ writer. Some writer.bytes.items };

    fn write(&mut self, buf: &[u8]) -> io::Result<usize> {
        self.write_known(buf)
    }

    fn flush(&mut self) -> io::Result<()> {
        self.flush_known()
    }
}

/// Its writes may fail if no memory is left, its flushes if it is told to stop at them.
impl KnownWriter for LimitedWriter {
    ghost contents = { λ writer. Some writer.bytes.items };

    ghost is_flushed = { λ writer. writer.is_flushed };

    ghost may_fail = { λ _. true };

    ghost may_fail_to_flush = { λ writer. fails_to_flush writer.stop };

    fn write_known(&mut self, bytes: &[u8]) -> io::Result<usize> {
        self.writes = self.writes.saturating_add(1);
        match self.stop {
            Some(Stop::Fails { write }) if write == self.writes => {
                return Err(io::Error::from(ErrorKind::Other));
            }
            Some(Stop::TakesNone { write }) if write == self.writes => return Ok(0),
            _ => {}
        }
        let count = bytes.len().min(self.most);
        self.bytes.extend_from_slice(&bytes[..count])?;
        self.is_flushed = false;
        Ok(count)
    }

    fn flush_known(&mut self) -> io::Result<()> {
        self.flushes = self.flushes.saturating_add(1);
        if let Some(Stop::FailsToFlush) = self.stop {
            return Err(io::Error::from(ErrorKind::Other));
        }
        self.is_flushed = true;
        Ok(())
    }
}
