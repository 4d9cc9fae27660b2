//! Bytes on their way to a sink, in blocks.

ghost use Rattle.std.specs.Prelude.{◌≡◌, ◌+◌, ◌^◌, ◌<◌, ◌≤◌, [], length, replicate, take, true, false, MatchResult, OnOk};
ghost use Rattle.std.specs.Io.KnownBytes.{Appends};
ghost use Rattle.report_streams.specs.DevicesWords.Devices.{HasFailedBy};
ghost use Rattle.report_writer.specs.Outgoing.{Outgoing, Takes, total};

use crate::fault::WriteFault;
use arrayvec::ArrayVec;
use report_streams::devices::Sink;
use std::marker::Model;

// Room for 64 KB beside a line, so that a block that has no room for a line has 64 KB.
const BLOCK: usize = 65536 + 128;

// A sink, and the bytes that wait until they are a block.
#[derive(Drop)]
pub(crate) struct Outlet<S: Sink + Drop> {
    sink: S,
    waiting: ArrayVec<u8, BLOCK>,
    written: u64,
    has_failed: bool,
}

impl<S: Sink + Drop> Model for Outlet<S> {
    ghost Value = { Outgoing S };

    ghost view = { λ outlet. record {
      sink = outlet.sink;
      waiting = outlet.waiting.items;
      written = outlet.written;
      has_failed = outlet.has_failed;
    } };

    ghost invariant = { λ outlet. outlet.has_failed ≡ true → S.has_failed outlet.sink ≡ true };
}

impl<S: Sink + Drop> Outlet<S> {
    pub(crate) fn new(sink: S) -> Outlet<S>
        ensures sink { result.sink ≡ sink }
        ensures none_wait { result.waiting ≡ [] }
        ensures none_written { result.written ≡ 0 }
        ensures well { result.has_failed ≡ false }
    {
        Outlet {
            sink,
            waiting: ArrayVec::new(),
            written: 0,
            has_failed: false,
        }
    }

    // How many bytes the sink took.
    pub(crate) fn written(&self) -> u64
        ensures { result ≡ self.now.written }
    {
        self.written
    }

    // Fails where a fault was told.
    pub(crate) fn check(&self) -> Result<(), WriteFault>
        ensures well { OnOk result (self.now.has_failed ≡ false) }
        ensures bytes { Takes S.held S.has_failed [] result self.now self.now }
    {
        if self.has_failed {
            return Err(self.fault());
        }
        Ok(())
    }

    // Takes up bytes, a block at most.
    pub(crate) fn take(&mut self, bytes: &[u8]) -> Result<(), WriteFault>
        requires few { length bytes.now ≤ 65664 }
        requires fits { total self.old + length bytes.now < 2 ^ 64 }
        ensures bytes { Takes S.held S.has_failed bytes.now result self.old self.new }
        ensures same { S.borrow self.new.sink ≡ S.borrow self.old.sink }
    {
        if self.waiting.try_extend_from_slice(bytes).is_err() {
            self.put_out()?;
            // An empty block has room for them.
            let _ = self.waiting.try_extend_from_slice(bytes);
        }
        Ok(())
    }

    // Takes up a byte so many times.
    pub(crate) fn repeat(&mut self, byte: u8, count: u32) -> Result<(), WriteFault>
        requires { total self.old + count < 2 ^ 64 }
        ensures bytes { Takes S.held S.has_failed (replicate count byte) result self.old self.new }
        ensures same { S.borrow self.new.sink ≡ S.borrow self.old.sink }
    {
        for _time in 0..count {
            self.take(&[byte])?;
        }
        Ok(())
    }

    // Writes all that waits.
    pub(crate) fn put_out(&mut self) -> Result<(), WriteFault>
        requires { total self.old < 2 ^ 64 }
        ensures bytes { Takes S.held S.has_failed [] result self.old self.new }
        ensures all { OnOk result (self.new.waiting ≡ []) }
        ensures same { S.borrow self.new.sink ≡ S.borrow self.old.sink }
    {
        match write_all(&mut self.sink, self.waiting.as_slice()) {
            Ok(()) => {
                self.written += self.waiting.len() as u64;
                self.waiting.clear();
                Ok(())
            }
            Err(done) => {
                self.written += done as u64;
                self.has_failed = true;
                Err(self.fault())
            }
        }
    }

    // Has the sink hand on all that it took.
    pub(crate) fn flush(&mut self) -> Result<(), WriteFault>
        ensures bytes { Takes S.held S.has_failed [] result self.old self.new }
        ensures waiting { self.new.waiting ≡ self.old.waiting }
        ensures flushed { OnOk result (S.is_flushed self.new.sink ≡ true) }
        ensures same { S.borrow self.new.sink ≡ S.borrow self.old.sink }
    {
        if self.sink.flush().is_err() {
            self.has_failed = true;
            return Err(self.fault());
        }
        Ok(())
    }

    // The fault that is told.
    fn fault(&self) -> WriteFault
        ensures { result.written ≡ self.now.written }
    {
        WriteFault {
            written: self.written,
        }
    }

    pub(crate) fn into_sink(self) -> S
        ensures { result ≡ self.sink }
    {
        let Outlet { sink, .. } = self;
        sink
    }
}

// Writes bytes, from where a short write stopped; a failure tells how many are written.
fn write_all<S: Sink>(sink: &mut S, bytes: &[u8]) -> Result<(), usize>
    ensures written { MatchResult result (λ _. Appends (S.held sink.old) (S.held sink.new) bytes.now)
        (λ done. (done ≤ length bytes.now) × Appends (S.held sink.old) (S.held sink.new) (take done bytes.now)) }
    ensures failed { HasFailedBy result (S.has_failed sink.old) (S.has_failed sink.new) }
    ensures same { S.borrow sink.new ≡ S.borrow sink.old }
{
    let mut done = 0;
    while done < bytes.len() {
        match sink.write(&bytes[done..]) {
            Ok(count) => done += count,
            Err(_) => return Err(done),
        }
    }
    Ok(())
}
