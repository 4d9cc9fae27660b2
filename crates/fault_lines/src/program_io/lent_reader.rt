//! A reader of std that is lent, as a source.

ghost use Rattle.std.specs.Prelude.{◌≡◌, false};

use report_streams::devices::{DeviceFailed, Source};
use std::io::Read;

/// A reader that is lent. It has failed where the reader did, an interrupted read among that, and asks it no more from then on.
#[derive(Drop)]
pub struct LentReader<'a, R: Read> {
    reader: &'a mut R,
    reads: u64,
    has_failed: bool,
}

impl<'a, R: Read> LentReader<'a, R> {
    /// The reader, which has not failed yet.
    pub fn new(reader: &'a mut R) -> LentReader<'a, R>
        ensures reader { result.reader ≡ reader.entry }
        ensures unread { result.reads ≡ 0 }
        ensures well { result.has_failed ≡ false }
    {
        LentReader {
            reader,
            reads: 0,
            has_failed: false,
        }
    }

    /// The reader, as it stands.
    pub fn into_reader(self) -> &'a mut R
        ensures { result ≡ self.entry.reader }
    {
        let LentReader { reader, .. } = self;
        reader
    }
}

impl<R: Read> Source for LentReader<'_, R> {
    ghost left = { λ source. R.remaining source.reader.now };

    ghost reads = { λ source. source.reads };

    ghost has_failed = { λ source. source.has_failed };

    ghost borrow = { λ source. source.reader.ghost_name };

    fn read(&mut self, bytes: &mut [u8]) -> Result<usize, DeviceFailed> {
        self.reads = self.reads.saturating_add(1);
        if self.has_failed {
            return Err(DeviceFailed);
        }
        match self.reader.read(bytes) {
            Ok(count) => Ok(count),
            Err(_) => {
                self.has_failed = true;
                Err(DeviceFailed)
            }
        }
    }
}
