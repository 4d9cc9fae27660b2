//! Readers in a row.

ghost use Rattle.std.specs.Prelude.{◌≡◌, ◌≢◌, ◌<◌, ◌≤◌, ◌-◌, ◌*◌, ℕ, List, map, None, Some, Ok, length};
ghost use Rattle.report_streams.specs.DecksInRow.InRow.{in_row, left_of};
ghost use Rattle.report_streams.specs.DecksInRow.Rows.{Gives, left_behind, reads_left, row_left};

use crate::decks_in_row::stand::Stand;
use std::collections::VecDeque;
use std::io;
use std::io::Read;

/// Readers in a row, read as one deck.
///
/// A reader is asked no more once it has told its end. One that fails can be asked again; nothing is lost by it.
#[derive(Drop)]
pub struct DecksInRow<R: Read + Drop> {
    // The one that is being read.
    deck: Option<R>,
    // Those behind it.
    next: VecDeque<R>,
    // Where in a line the next byte stands.
    stand: Stand,
    // A byte that was read and comes before the next one.
    owed: Option<u8>,
}

impl<R: Read + Drop> DecksInRow<R> {
    /// The readers in their order, of which nothing was read yet. What readers that tell their bytes have left is the text of these decks in
    /// a row.
    pub fn new(mut decks: VecDeque<R>) -> DecksInRow<R>
        ensures left { row_left R.remaining result.owed result.stand result.deck result.next.items
            ≡ left_of R.remaining Stand.LineStart decks.items }
        ensures known { (texts : List (List ℕ)) → map R.remaining decks.items ≡ map Some texts →
            row_left R.remaining result.owed result.stand result.deck result.next.items ≡ Some (in_row texts) }
    {
        let deck = decks.pop_front();
        DecksInRow {
            deck,
            next: decks,
            stand: Stand::LineStart,
            owed: None,
        }
    }
}

impl<R: Read + Drop> DecksInRow<R> {
    // Passes over the end of the deck.
    fn pass_end(&mut self)
        ensures deck { left_behind R.remaining self.new.stand self.new.deck self.new.next.items ≡ left_of R.remaining Stand.LineStart self.old.next.items }
        ensures owed { self.new.owed ≡ self.old.owed }
        ensures fewer { reads_left self.new.stand self.new.deck self.new.next.items ≤ 2 * length self.old.next.items }
    {
        self.deck = self.next.pop_front();
        self.stand = Stand::LineStart;
    }

    // Reads of the deck, or passes over its end: then what it gives is its line end, or nothing.
    fn read_deck(&mut self, buf: &mut [u8]) -> io::Result<usize>
        requires room { 0 < length buf.old }
        requires stand { self.old.stand ≢ Stand.HeldCr }
        requires owed { self.old.owed ≡ None }
        ensures bytes { Gives
            (row_left R.remaining self.old.owed self.old.stand self.old.deck self.old.next.items)
            (row_left R.remaining self.new.owed self.new.stand self.new.deck self.new.next.items)
            result buf.new }
        ensures room { length buf.new ≡ length buf.old }
        ensures owed { self.new.owed ≡ None }
        ensures fewer { result ≡ Ok 0 → reads_left self.new.stand self.new.deck self.new.next.items ≤ reads_left self.old.stand self.old.deck self.old.next.items - 1 }
    {
        let Some(deck) = &mut self.deck else {
            return Ok(0);
        };
        let count = deck.read(buf)?;
        if count > 0 {
            self.stand = self.stand.behind_read(&buf[..count]);
            return Ok(self.stand.given_of(count));
        }
        let lacks_end = self.stand.lacks_end();
        self.pass_end();
        if !lacks_end {
            return Ok(0);
        }
        buf[0] = b'\n';
        Ok(1)
    }

    // Reads the byte behind a CR that is held back, and gives the CR, or passes over the end of the deck.
    fn read_behind_cr(&mut self, buf: &mut [u8]) -> io::Result<usize>
        requires room { 0 < length buf.old }
        requires stand { self.old.stand ≡ Stand.HeldCr }
        requires owed { self.old.owed ≡ None }
        ensures bytes { Gives
            (row_left R.remaining self.old.owed self.old.stand self.old.deck self.old.next.items)
            (row_left R.remaining self.new.owed self.new.stand self.new.deck self.new.next.items)
            result buf.new }
        ensures room { length buf.new ≡ length buf.old }
        ensures owed { result ≡ Ok 0 → self.new.owed ≡ None }
        ensures fewer { result ≡ Ok 0 → reads_left self.new.stand self.new.deck self.new.next.items ≤ reads_left self.old.stand self.old.deck self.old.next.items - 1 }
    {
        let Some(deck) = &mut self.deck else {
            return Ok(0);
        };
        let mut behind = [0];
        if deck.read(&mut behind)? == 0 {
            self.pass_end();
            return Ok(0);
        }
        let [byte] = behind;
        self.stand = Stand::behind_byte(byte);
        self.owed = Some(byte);
        buf[0] = b'\r';
        Ok(1)
    }
}

impl<R: Read + Drop> Read for DecksInRow<R> {
    ghost remaining = { λ row. row_left R.remaining row.owed row.stand row.deck row.next.items };

    fn read(&mut self, buf: &mut [u8]) -> io::Result<usize> {
        if buf.is_empty() {
            return Ok(0);
        }
        if let Some(byte) = self.owed.take() {
            buf[0] = byte;
            return Ok(1);
        }
        while self.deck.is_some() {
            let count = match self.stand {
                Stand::HeldCr => self.read_behind_cr(buf)?,
                Stand::LineStart | Stand::InLine => self.read_deck(buf)?,
            };
            if count > 0 {
                return Ok(count);
            }
        }
        Ok(0)
    }
}
