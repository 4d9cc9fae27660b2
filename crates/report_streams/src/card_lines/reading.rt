//! Cards off the front of what a source gives.

ghost use Rattle.std.specs.Prelude.{◌≡◌, ◌≢◌, ◌+◌, ◌≤◌, ℕ, List, [], ◌∷◌, length, Some, true, false, IfOk, IfErr, IfSome, IfNone, IsErr, IsOk, IsSome, drop, MatchResult, None, Ok, OnErr, OnOk};
ghost use Rattle.std.specs.Io.KnownBytes.{IsAtEnd, Keeps};
ghost use Rattle.card_code.specs.Deck.{HasCharacters, HasLineFault, IsCardOf};
ghost use Rattle.card_code.specs.declared.deck.DeckFault.{DeckFault};
ghost use Rattle.card_code.specs.Lines.{lines_of, without_cr};
ghost use Rattle.card_code.specs.MostCards.{most_cards};
ghost use Rattle.report_streams.specs.CardLines.Reading.{Reading, still_to_come, IsSettled, IsThere, IsOver, GivesCard, TakesEndedLine, HasFirstLine};
ghost use Rattle.report_streams.specs.CardLines.Front.{IsFront, IsPart, IsTooLong, line_end};
ghost use Rattle.report_streams.specs.CardLines.Faults.{HasFaultNext};
ghost use Rattle.report_streams.specs.declared.card_lines.fault.ReadFault.TheVariants as read;
ghost use Rattle.report_streams.specs.declared.card_lines.front.Front.TheVariants as stands;

use crate::card_lines::fault::ReadFault;
use crate::card_lines::front::Front;
use crate::card_lines::held::Held;
use crate::devices::{DeviceFailed, Source};
use card_code::{Card, DeckFault, MOST_CARDS, punch_line, read_card, without_cr};
use std::marker::Model;

/// The cards of a deck, one by one, from the bytes of a source.
///
/// Contracts see the source, the bytes held that were read from it and not given yet, how many cards were given, at most 999,999,
/// whether the end of the source was met, and whether a fault was told.
#[derive(Drop)]
pub struct CardLines<S: Source + Drop> {
    source: S,
    held: Held,
    given: u32,
    at_end: bool,
    has_failed: bool,
}

impl<S: Source + Drop> Model for CardLines<S> {
    ghost Value = { Reading S };

    ghost view = { λ lines. record {
      source = lines.source;
      held = lines.held;
      given = lines.given;
      at_end = lines.at_end;
      has_failed = lines.has_failed;
    } };

    ghost invariant = { λ lines. (lines.given ≤ most_cards) × (lines.at_end ≡ true → IsAtEnd (S.left lines.source)) };
}

impl<S: Source + Drop> CardLines<S> {
    /// The cards of all bytes that the source has left.
    pub fn new(source: S) -> CardLines<S>
        ensures source { result.source ≡ source }
        ensures nothing_held { result.held ≡ [] }
        ensures nothing_given { result.given ≡ 0 }
        ensures begun { result.at_end ≡ false }
        ensures well { result.has_failed ≡ false }
    {
        CardLines {
            source,
            held: Held::new(),
            given: 0,
            at_end: false,
            has_failed: false,
        }
    }

    /// The source, as it stands. What was read and not given yet is dropped.
    pub fn into_source(self) -> S
        ensures { result ≡ self.source }
    {
        let CardLines { source, .. } = self;
        source
    }

    /// The next card, or `None` where no line is left, and then always.
    ///
    /// It reads nothing if it holds a whole line when it is called, or one that is surely too long; else at most 82 times, and never again
    /// after the end of the source or a fault. A line is at fault only once it is there whole or surely too long, or the source has ended.
    /// If the last line has no LF, the end is known as soon as its card is given.
    ///
    /// # Errors
    ///
    /// `Read` where the source fails; else `Deck` where the line is the one after 999,999 cards (`TooManyCards`), has more than 80
    /// characters (`CardTooLong`) or one that is no deck character (`NoSuchCharacter`). After each of these `Failed`, always.
    pub fn next_card(&mut self) -> Result<Option<Card>, ReadFault>
        ensures card { IfOk result (λ found. IfSome found (λ card. (text : List ℕ) → still_to_come S.left self.old ≡ Some text →
            GivesCard self.old.given text card (still_to_come S.left self.new))) }
        ensures punched { IfOk result (λ found. IfSome found HasCharacters) }
        ensures one_more { IfOk result (λ found. IfSome found (λ _. self.new.given ≡ self.old.given + 1)) }
        ensures unended { self.new.at_end ≡ false → IfOk result (λ found. IfSome found (λ _. (text : List ℕ) →
            still_to_come S.left self.old ≡ Some text → TakesEndedLine text (still_to_come S.left self.new))) }
        ensures few { self.new.given ≤ most_cards }
        ensures none { IfOk result (λ found. IfNone found ((text : List ℕ) → still_to_come S.left self.old ≡ Some text →
            lines_of text ≡ [])) }
        ensures all { IfOk result (λ found. IfNone found (IsAtEnd (S.left self.new.source))) }
        ensures kept { MatchResult result (λ found. IfNone found (Keeps (still_to_come S.left self.old) (still_to_come S.left self.new)))
            (λ _. Keeps (still_to_come S.left self.old) (still_to_come S.left self.new)) }
        ensures over { IfOk result (λ found. IfNone found (IsOver self.new)) }
        ensures none_again { IsOver self.old → (result ≡ Ok None) × (self.new ≡ self.old) }
        ensures fault { self.old.has_failed ≡ false → IfErr result (λ fault. (text : List ℕ) →
            still_to_come S.left self.old ≡ Some text → HasFaultNext self.old.given text fault) }
        ensures read { self.old.has_failed ≡ false → IfErr result (λ fault. (line : ℕ) → fault ≡ read.Read line →
            (line ≡ self.old.given + 1) × (S.has_failed self.new.source ≡ true)) }
        ensures part { self.old.has_failed ≡ false → IfErr result (λ fault. (line : ℕ) → fault ≡ read.Read line →
            IsPart self.new.held) }
        ensures there { IfErr result (λ fault. (it : DeckFault) → fault ≡ read.Deck it → IsThere self.new) }
        ensures end_stays { self.old.at_end ≡ true → self.new.at_end ≡ true }
        ensures told { IfErr result (λ _. self.new.has_failed ≡ true) }
        ensures well { OnOk result (self.new.has_failed ≡ false) }
        ensures sound { OnOk result (S.has_failed self.new.source ≡ S.has_failed self.old.source) }
        ensures again { self.old.has_failed ≡ true → IfErr result (λ fault. fault ≡ read.Failed) }
        ensures no_card_again { self.old.has_failed ≡ true → IsErr result }
        ensures unread_again { self.old.has_failed ≡ true → self.new ≡ self.old }
        ensures unread { IsSettled self.old.held → self.new.source ≡ self.old.source }
        ensures ended { self.old.at_end ≡ true → self.new.source ≡ self.old.source }
        ensures counted { S.reads self.new.source ≤ S.reads self.old.source + 82 }
        ensures same { S.borrow self.new.source ≡ S.borrow self.old.source }
    {
        let mut next = None;
        match self.next_into(&mut next) {
            Ok(()) => Ok(next),
            Err(fault) => Err(fault),
        }
    }

    /// Puts the next card in the place of another one, or of `None`; `None` where no line is left, and then always. A line is punched into
    /// the card that it replaces, so that no card is copied. What stands there after a fault is not told.
    ///
    /// It reads nothing if it holds a whole line when it is called, or one that is surely too long; else at most 82 times, and never again
    /// after the end of the source or a fault. A line is at fault only once it is there whole or surely too long, or the source has ended.
    /// If the last line has no LF, the end is known as soon as its card is given.
    ///
    /// # Errors
    ///
    /// `Read` where the source fails; else `Deck` where the line is the one after 999,999 cards (`TooManyCards`), has more than 80
    /// characters (`CardTooLong`) or one that is no deck character (`NoSuchCharacter`). After each of these `Failed`, always.
    pub fn next_into(&mut self, next: &mut Option<Card>) -> Result<(), ReadFault>
        ensures card { OnOk result (IfSome next.new (λ card. (text : List ℕ) → still_to_come S.left self.old ≡ Some text →
            GivesCard self.old.given text card (still_to_come S.left self.new))) }
        ensures punched { OnOk result (IfSome next.new HasCharacters) }
        ensures one_more { OnOk result (IfSome next.new (λ _. self.new.given ≡ self.old.given + 1)) }
        ensures unended { self.new.at_end ≡ false → OnOk result (IfSome next.new (λ _. (text : List ℕ) →
            still_to_come S.left self.old ≡ Some text → TakesEndedLine text (still_to_come S.left self.new))) }
        ensures few { self.new.given ≤ most_cards }
        ensures none { OnOk result (IfNone next.new ((text : List ℕ) → still_to_come S.left self.old ≡ Some text →
            lines_of text ≡ [])) }
        ensures all { OnOk result (IfNone next.new (IsAtEnd (S.left self.new.source))) }
        ensures kept { MatchResult result (λ _. IfNone next.new (Keeps (still_to_come S.left self.old) (still_to_come S.left self.new)))
            (λ _. Keeps (still_to_come S.left self.old) (still_to_come S.left self.new)) }
        ensures over { OnOk result (IfNone next.new (IsOver self.new)) }
        ensures none_again { IsOver self.old → IsOk result × (next.new ≡ None) × (self.new ≡ self.old) }
        ensures fault { self.old.has_failed ≡ false → IfErr result (λ fault. (text : List ℕ) →
            still_to_come S.left self.old ≡ Some text → HasFaultNext self.old.given text fault) }
        ensures read { self.old.has_failed ≡ false → IfErr result (λ fault. (line : ℕ) → fault ≡ read.Read line →
            (line ≡ self.old.given + 1) × (S.has_failed self.new.source ≡ true)) }
        ensures part { self.old.has_failed ≡ false → IfErr result (λ fault. (line : ℕ) → fault ≡ read.Read line →
            IsPart self.new.held) }
        ensures there { IfErr result (λ fault. (it : DeckFault) → fault ≡ read.Deck it → IsThere self.new) }
        ensures end_stays { self.old.at_end ≡ true → self.new.at_end ≡ true }
        ensures told { IfErr result (λ _. self.new.has_failed ≡ true) }
        ensures well { OnOk result (self.new.has_failed ≡ false) }
        ensures sound { OnOk result (S.has_failed self.new.source ≡ S.has_failed self.old.source) }
        ensures again { self.old.has_failed ≡ true → IfErr result (λ fault. fault ≡ read.Failed) }
        ensures no_card_again { self.old.has_failed ≡ true → IsErr result }
        ensures unread_again { self.old.has_failed ≡ true → self.new ≡ self.old }
        ensures unread { IsSettled self.old.held → self.new.source ≡ self.old.source }
        ensures ended { self.old.at_end ≡ true → self.new.source ≡ self.old.source }
        ensures counted { S.reads self.new.source ≤ S.reads self.old.source + 82 }
        ensures same { S.borrow self.new.source ≡ S.borrow self.old.source }
    {
        if self.has_failed {
            return Err(ReadFault::Failed);
        }
        let taken = self.take_card(next);
        self.has_failed = taken.is_err();
        taken
    }
}

impl<S: Source + Drop> CardLines<S> {
    // Puts the next card in its place, where no fault was told.
    fn take_card(&mut self, next: &mut Option<Card>) -> Result<(), ReadFault>
        requires { self.old.has_failed ≡ false }
        ensures card { OnOk result (IfSome next.new (λ card. (text : List ℕ) → still_to_come S.left self.old ≡ Some text →
            GivesCard self.old.given text card (still_to_come S.left self.new))) }
        ensures punched { OnOk result (IfSome next.new HasCharacters) }
        ensures one_more { OnOk result (IfSome next.new (λ _. self.new.given ≡ self.old.given + 1)) }
        ensures unended { self.new.at_end ≡ false → OnOk result (IfSome next.new (λ _. (text : List ℕ) →
            still_to_come S.left self.old ≡ Some text → TakesEndedLine text (still_to_come S.left self.new))) }
        ensures none { OnOk result (IfNone next.new ((text : List ℕ) → still_to_come S.left self.old ≡ Some text →
            lines_of text ≡ [])) }
        ensures all { OnOk result (IfNone next.new (IsAtEnd (S.left self.new.source))) }
        ensures kept { MatchResult result (λ _. IfNone next.new (Keeps (still_to_come S.left self.old) (still_to_come S.left self.new)))
            (λ _. Keeps (still_to_come S.left self.old) (still_to_come S.left self.new)) }
        ensures at_end { OnOk result (IfNone next.new ((self.new.at_end ≡ true) × (without_cr self.new.held ≡ []))) }
        ensures none_again { IsOver self.old → IsOk result × (next.new ≡ None) × (self.new ≡ self.old) }
        ensures fault { IfErr result (λ fault. (text : List ℕ) →
            still_to_come S.left self.old ≡ Some text → HasFaultNext self.old.given text fault) }
        ensures read { IfErr result (λ fault. (line : ℕ) → fault ≡ read.Read line →
            (line ≡ self.old.given + 1) × (S.has_failed self.new.source ≡ true)) }
        ensures part { IfErr result (λ fault. (line : ℕ) → fault ≡ read.Read line → IsPart self.new.held) }
        ensures there { IfErr result (λ fault. (it : DeckFault) → fault ≡ read.Deck it → IsThere self.new) }
        ensures end_stays { self.old.at_end ≡ true → self.new.at_end ≡ true }
        ensures sound { OnOk result (S.has_failed self.new.source ≡ S.has_failed self.old.source) }
        ensures unread { IsSettled self.old.held → self.new.source ≡ self.old.source }
        ensures ended { self.old.at_end ≡ true → self.new.source ≡ self.old.source }
        ensures counted { S.reads self.new.source ≤ S.reads self.old.source + 82 }
        ensures same { S.borrow self.new.source ≡ S.borrow self.old.source }
    {
        let Ok(front) = self.fill() else {
            return Err(ReadFault::Read {
                line: self.given + 1,
            });
        };
        match front {
            Front::Line => self.take_line(next),
            Front::TooLong => Err(self.too_long()),
            Front::Part if without_cr(self.held.line()).is_empty() => {
                *next = None;
                Ok(())
            }
            Front::Part => self.take_line(next),
        }
    }

    // Reads until a whole line, one that is surely too long, or the end is met.
    fn fill(&mut self) -> Result<Front, DeviceFailed>
        ensures text { Keeps (still_to_come S.left self.old) (still_to_come S.left self.new) }
        ensures front { IfOk result (λ front. IsFront self.new.held front) }
        ensures end { IfOk result (λ front. front ≡ stands.Part → self.new.at_end ≡ true) }
        ensures given { self.new.given ≡ self.old.given }
        ensures has_failed { self.new.has_failed ≡ self.old.has_failed }
        ensures failed { OnErr result (S.has_failed self.new.source ≡ true) }
        ensures well { OnOk result (S.has_failed self.new.source ≡ S.has_failed self.old.source) }
        ensures part { OnErr result (IsPart self.new.held) }
        ensures unread { IsSettled self.old.held → self.new.source ≡ self.old.source }
        ensures ended { self.old.at_end ≡ true → (self.new ≡ self.old) × IsOk result }
        ensures counted { S.reads self.new.source ≤ S.reads self.old.source + 82 }
        ensures same { S.borrow self.new.source ≡ S.borrow self.old.source }
    {
        loop {
            let front = self.held.front();
            if !matches!(front, Front::Part) || self.at_end {
                return Ok(front);
            }
            self.at_end = self.held.read_more(&mut self.source)? == 0;
        }
    }

    // Puts the card of the line at the front in its place, which is held whole or is the last one.
    fn take_line(&mut self, next: &mut Option<Card>) -> Result<(), ReadFault>
        requires first { (rest : List ℕ) → S.left self.old.source ≡ Some rest → HasFirstLine self.old.held rest }
        requires short { line_end self.old.held ≤ 81 }
        ensures some { OnOk result (IsSome next.new) }
        ensures card { OnOk result (IfSome next.new (λ card. (text : List ℕ) → still_to_come S.left self.old ≡ Some text →
            GivesCard self.old.given text card (still_to_come S.left self.new))) }
        ensures punched { OnOk result (IfSome next.new HasCharacters) }
        ensures one_more { OnOk result (self.new.given ≡ self.old.given + 1) }
        ensures fault { IfErr result (λ fault. (text : List ℕ) →
            still_to_come S.left self.old ≡ Some text → HasFaultNext self.old.given text fault) }
        ensures not_read { IfErr result (λ fault. (line : ℕ) → fault ≢ read.Read line) }
        ensures kept { OnErr result (self.new ≡ self.old) }
        ensures used { OnOk result (self.new.held ≡ drop (line_end self.old.held + 1) self.old.held) }
        ensures at_end { self.new.at_end ≡ self.old.at_end }
        ensures unread { self.new.source ≡ self.old.source }
    {
        if self.given == MOST_CARDS as u32 {
            return Err(DeckFault::TooManyCards.into());
        }
        put_card(self.given + 1, without_cr(self.held.line()), next)?;
        self.held.use_up_line();
        self.given += 1;
        Ok(())
    }

    // The fault of a line that is surely too long.
    fn too_long(&self) -> ReadFault
        requires { IsTooLong self.now.held }
        ensures fault { (text : List ℕ) → still_to_come S.left self.now ≡ Some text → HasFaultNext self.now.given text result }
        ensures not_read { (line : ℕ) → result ≢ read.Read line }
    {
        if self.given == MOST_CARDS as u32 {
            return DeckFault::TooManyCards.into();
        }
        ReadFault::Deck {
            fault: DeckFault::CardTooLong {
                line: self.given + 1,
            },
        }
    }
}

// Puts the card of the line with this number in the place of another, or of none.
fn put_card(number: u32, line: &[u8], next: &mut Option<Card>) -> Result<(), DeckFault>
    ensures some { OnOk result (IsSome next.new) }
    ensures card { OnOk result (IfSome next.new (IsCardOf line.now)) }
    ensures fault { IfErr result (λ fault. HasLineFault line.now number fault) }
{
    match next {
        Some(card) => punch_line(number, line, card),
        None => {
            *next = Some(read_card(number, line)?);
            Ok(())
        }
    }
}
