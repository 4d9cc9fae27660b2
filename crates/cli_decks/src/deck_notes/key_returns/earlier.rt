//! The keys that stood before a card.

ghost use Rattle.std.specs.Prelude.{◌≡◌, ◌≤◌, ℕ, List, [], IfOk, OnOk, nat_lt};
ghost use Rattle.chart_lines.specs.ChartsWords.Levels.{control_number};
ghost use Rattle.chart_lines.specs.declared.charts.chart.Line.{Line};
ghost use Rattle.cli_decks.specs.DeckNotes.KeyReturns.HelperKept.{AreEarlier, AreFirst, at_level};
ghost use Rattle.cli_decks.specs.DeckNotes.KeyReturns.Returns.{Earlier, Numbered, cut, earlier_with, none_earlier, stood, stood_among, with_card};

use crate::deck_notes::key_returns::keys::key_of;
use card_code::Card;
use chart_lines::charts::ControlLevel;
use chart_rules::Chart;
use indexmap::IndexMap;
use std::alloc::{AllocError, Global};

// The keys of a level in a group of the level above, each with the number of the first card that has it.
#[derive(Drop)]
pub(crate) struct FirstCards {
    numbers: IndexMap<Vec<u16>, u32>,
}

impl FirstCards {
    // No key.
    fn new(alloc: Global) -> FirstCards
        ensures { (lines : List Line) (level : ℕ) → AreFirst lines level [] result }
    {
        FirstCards {
            numbers: IndexMap::new(alloc),
        }
    }

    // Forgets all keys if the group of the level above ends.
    fn cut(&mut self, ends: bool)
        ensures { (lines : List Line) (level : ℕ) (cards : Numbered) → AreFirst lines level cards self.old
            → AreFirst lines level (cut ends cards) self.new }
    {
        if ends {
            self.numbers.clear();
        }
    }

    // Takes the card with a number, and answers the number of the first card with its key, if one stood before.
    fn take(
        &mut self,
        alloc: Global,
        chart: &Chart,
        level: ControlLevel,
        card: &Card,
        number: u32,
    ) -> Result<Option<u32>, AllocError>
        ensures stood { IfOk result (λ first. (cards : Numbered) → AreFirst chart.now.lines (control_number level) cards self.old
            → first ≡ stood_among chart.now.lines (control_number level) card.now cards) }
        ensures kept { OnOk result ((cards : Numbered) → AreFirst chart.now.lines (control_number level) cards self.old
            → AreFirst chart.now.lines (control_number level) (with_card card.now number cards) self.new) }
    {
        let key = key_of(alloc, chart, level, card)?;
        if let Some(first) = self.numbers.get(key.as_slice()).copied() {
            return Ok(Some(first));
        }
        self.numbers.insert(key, number)?;
        Ok(None)
    }
}

/// The keys so far, by their levels.
#[derive(Drop)]
pub(crate) struct EarlierKeys {
    minor: FirstCards,
    intermediate: FirstCards,
    major: FirstCards,
}

impl EarlierKeys {
    /// Before the first card.
    pub(crate) fn new(alloc: Global) -> EarlierKeys
        ensures { (lines : List Line) → AreEarlier lines none_earlier result }
    {
        EarlierKeys {
            minor: FirstCards::new(alloc),
            intermediate: FirstCards::new(alloc),
            major: FirstCards::new(alloc),
        }
    }

    // Forgets the keys of the groups that a break of a level ends.
    fn cut(&mut self, broken: u8)
        ensures { (lines : List Line) (earlier : Earlier) → AreEarlier lines earlier self.old
            → AreEarlier lines (λ level. cut (nat_lt level broken) (earlier level)) self.new }
    {
        self.minor.cut(1 < broken);
        self.intermediate.cut(2 < broken);
        self.major.cut(3 < broken);
    }

    /// Takes the card with a number, before which a break of a level stands, or none (0), and answers the number of the first card in the group
    /// of the level above that has its key, if there is one.
    pub(crate) fn take(
        &mut self,
        alloc: Global,
        chart: &Chart,
        broken: u8,
        card: &Card,
        number: u32,
    ) -> Result<Option<u32>, AllocError>
        requires { broken ≤ 3 }
        ensures stood { IfOk result (λ first. (earlier : Earlier) → AreEarlier chart.now.lines earlier self.old
            → first ≡ stood chart.now.lines earlier broken card.now) }
        ensures kept { OnOk result ((earlier : Earlier) → AreEarlier chart.now.lines earlier self.old
            → AreEarlier chart.now.lines (earlier_with earlier broken card.now number) self.new) }
    {
        self.cut(broken);
        let minor = self
            .minor
            .take(alloc, chart, ControlLevel::Minor, card, number)?;
        let intermediate = self
            .intermediate
            .take(alloc, chart, ControlLevel::Intermediate, card, number)?;
        let major = self
            .major
            .take(alloc, chart, ControlLevel::Major, card, number)?;
        Ok(at_level(broken, minor, intermediate, major))
    }
}

// That of a level of three.
fn at_level(
    level: u8,
    minor: Option<u32>,
    intermediate: Option<u32>,
    major: Option<u32>,
) -> Option<u32>
    ensures { result ≡ at_level level minor intermediate major }
{
    match level {
        1 => minor,
        2 => intermediate,
        3 => major,
        _ => None,
    }
}
