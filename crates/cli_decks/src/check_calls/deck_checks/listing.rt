//! The lines that are told, on their way to a writer.

ghost use Rattle.std.specs.Prelude.{◌≡◌, IfErr, OnOk, None, option_to_list};
ghost use Rattle.std.specs.Io.KnownBytes.{Appends};
ghost use Rattle.cli_decks.specs.CheckCalls.DeckChecks.HelperStanding.{BreaksOff};
ghost use Rattle.cli_decks.specs.CheckCalls.DeckChecks.HelperTold.{first_with};
ghost use Rattle.cli_decks.specs.CheckCalls.DeckChecks.Listings.{lines_told};

use fault_lines::faults::{Fault, unprinted, write_line};
use std::alloc::Global;
use std::io::Write;

// Writes bytes, from where a short write stopped, and all that the writer holds back. A write that takes none of some bytes has failed, an
// interrupted one too. If it fails, the writer has taken a front of the bytes, which may be none or all of them.
pub(crate) fn put<'a, W: Write>(out: &mut W, bytes: &[u8]) -> Result<(), Fault<'a>>
    ensures written { OnOk result (Appends (W.contents out.old) (W.contents out.new) bytes.now) }
    ensures broken { IfErr result (λ told. BreaksOff bytes.now (W.contents out.old) (W.contents out.new) told) }
{
    let mut done = 0;
    while done < bytes.len() {
        match out.write(&bytes[done..]) {
            Ok(0) => return Err(Fault::Write),
            Ok(count) => done += count,
            Err(error) => return Err(unprinted(&error)),
        }
    }
    match out.flush() {
        Ok(()) => Ok(()),
        Err(error) => Err(unprinted(&error)),
    }
}

// The fault that was listed first, if there is one, and room for a line.
#[derive(Drop)]
pub(crate) struct Listing<'a> {
    first: Option<Fault<'a>>,
    text: Vec<u8>,
}

impl<'a> Listing<'a> {
    pub(crate) fn new(alloc: Global) -> Listing<'a>
        ensures { result.first ≡ None }
    {
        Listing {
            first: None,
            text: Vec::new(alloc),
        }
    }

    // The fault that was listed first.
    pub(crate) fn first(&self) -> Option<Fault<'a>>
        ensures { result ≡ self.now.first }
    {
        self.first
    }

    // Lists a fault, if there is one.
    pub(crate) fn list<W: Write>(
        &mut self,
        told: Option<Fault<'a>>,
        out: &mut W,
    ) -> Result<(), Fault<'a>>
        ensures written { OnOk result (Appends (W.contents out.old) (W.contents out.new) (lines_told (option_to_list told.entry))) }
        ensures first { OnOk result (self.new.first ≡ first_with self.old.first told.entry) }
        ensures broken { IfErr result (λ fault.
            BreaksOff (lines_told (option_to_list told.entry)) (W.contents out.old) (W.contents out.new) fault) }
    {
        let Some(fault) = told else {
            return Ok(());
        };
        self.text.clear();
        if let Err(error) = write_line(&fault, &mut self.text) {
            return Err(unprinted(&error));
        }
        put(out, self.text.as_slice())?;
        if self.first.is_none() {
            self.first = Some(fault);
        }
        Ok(())
    }
}
