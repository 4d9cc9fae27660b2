//! The numbers of the parts that serve.

ghost use Rattle.std.specs.Prelude.{◌≡◌, ◌↔◌, ◌≤◌, IsTrue, IfOk};
ghost use Rattle.std.specs.List.{range_with_len};
ghost use Rattle.chart_plans.specs.PlansWords.PartNumbers.{AreApart, AreNumbers, AreThere};

use crate::wanted::Parts;
use chart_lines::charts::ControlLevel;
use std::alloc::{AllocError, Global};
use std::marker::Model;

/// A kind of parts other than the counter groups.
#[derive(Clone, Copy, Debug, PartialEq, Eq)]
pub enum PartKind {
    /// Pilots.
    Pilot,
    /// Comparing positions.
    Comparing,
    /// Storage units.
    Storage,
    /// Column splits.
    Split,
    /// Indicate positions of a level.
    Indicate(ControlLevel),
}

/// The numbers of the pilots, comparing positions, storage units, column splits and indicate positions that serve what a chart asks
/// for, each list in the order in which it asks for it.
///
/// Contracts see the numbers, from 1. Each is that of a part of the standard machine.
pub struct PartNumbers {
    pilots: Vec<u8>,
    comparing: Vec<u8>,
    storage: Vec<u8>,
    splits: Vec<u8>,
    // Those of the indicate positions by level.
    minor: Vec<u8>,
    intermediate: Vec<u8>,
    major: Vec<u8>,
}

// By hand, so that a function that drops one calls this, and doesn't drop its parts one by one.
impl Drop for PartNumbers {
    fn drop(self) {
        let PartNumbers {
            pilots: _pilots,
            comparing: _comparing,
            storage: _storage,
            splits: _splits,
            minor: _minor,
            intermediate: _intermediate,
            major: _major,
        } = self;
    }
}

impl Model for PartNumbers {
    ghost use Rattle.chart_plans.specs.PlansWords.PartNumbers.{AreThere, PartNumbers as Lists};

    ghost Value = { Lists };

    ghost view = { λ numbers. record {
      pilots = numbers.pilots.items;
      comparing = numbers.comparing.items;
      storage = numbers.storage.items;
      splits = numbers.splits.items;
      minor = numbers.minor.items;
      intermediate = numbers.intermediate.items;
      major = numbers.major.items;
    } };

    ghost invariant = { λ numbers. record {
      pilots : AreThere 16 numbers.pilots.items;
      comparing : AreThere 30 numbers.comparing.items;
      storage : AreThere 4 numbers.storage.items;
      splits : AreThere 16 numbers.splits.items;
      minor : AreThere 30 numbers.minor.items;
      intermediate : AreThere 30 numbers.intermediate.items;
      major : AreThere 30 numbers.major.items;
    } };
}

impl PartNumbers {
    ghost use Rattle.std.specs.Prelude.{◌≡◌, ◌↔◌, IfOk, IsTrue};
    ghost use Rattle.std.specs.List.{range_with_len};
    ghost use Rattle.std.specs.Prelude.{length};
    ghost use Rattle.chart_plans.specs.WantedWords.Wanted.{indicate_at};
    ghost use Rattle.chart_plans.specs.PlansWords.PartNumbers.{AreInOrder, AreNumbers, AreNumbersOf, AreThere, last_of, numbers_of};
    ghost use Rattle.chart_plans.specs.PlansWords.Renumbered.{renumbered};
    ghost use Rattle.chart_plans.specs.declared.plans.part_numbers.PartKind.TheVariants.{Indicate};
    ghost use Rattle.chart_plans.specs.PlansWords.Plans.{IsWithinMachine};

    /// The parts 1, 2 and so on of each kind, for these things in their order.
    pub fn in_order(alloc: Global, parts: &Parts) -> Result<PartNumbers, AllocError>
        requires { IsWithinMachine parts.now }
        ensures { IfOk result (AreInOrder parts.now) }
    {
        let pilots = first_numbers(alloc, parts.pilots().len(), 16)?;
        let comparing = first_numbers(alloc, parts.comparing().len(), 30)?;
        let storage = first_numbers(alloc, parts.storage().len(), 4)?;
        let splits = first_numbers(alloc, parts.splits().len(), 16)?;
        let minor = first_numbers(alloc, parts.indicate(ControlLevel::Minor).len(), 30)?;
        let intermediate = first_numbers(
            alloc,
            parts.indicate(ControlLevel::Intermediate).len(),
            30,
        )?;
        let major = first_numbers(alloc, parts.indicate(ControlLevel::Major).len(), 30)?;
        Ok(PartNumbers {
            pilots,
            comparing,
            storage,
            splits,
            minor,
            intermediate,
            major,
        })
    }

    /// The numbers of the pilots.
    pub fn pilots(&self) -> &[u8]
        ensures value { result.now ≡ self.now.pilots }
        ensures there { AreThere 16 self.now.pilots }
    {
        self.pilots.as_slice()
    }

    /// The numbers of the comparing positions.
    pub fn comparing(&self) -> &[u8]
        ensures value { result.now ≡ self.now.comparing }
        ensures there { AreThere 30 self.now.comparing }
    {
        self.comparing.as_slice()
    }

    /// The numbers of the storage units.
    pub fn storage(&self) -> &[u8]
        ensures value { result.now ≡ self.now.storage }
        ensures there { AreThere 4 self.now.storage }
    {
        self.storage.as_slice()
    }

    /// The numbers of the column splits.
    pub fn splits(&self) -> &[u8]
        ensures value { result.now ≡ self.now.splits }
        ensures there { AreThere 16 self.now.splits }
    {
        self.splits.as_slice()
    }

    /// The numbers of the indicate positions of a level.
    pub fn indicate(&self, level: ControlLevel) -> &[u8]
        ensures value { result.now ≡ numbers_of self.now (Indicate level) }
        ensures there { AreThere 30 (numbers_of self.now (Indicate level)) }
    {
        match level {
            ControlLevel::Minor => self.minor.as_slice(),
            ControlLevel::Intermediate => self.intermediate.as_slice(),
            ControlLevel::Major => self.major.as_slice(),
        }
    }

    /// These numbers, but of one kind others, each one of the standard machine's.
    pub fn with(self, kind: PartKind, numbers: Vec<u8>) -> PartNumbers
        requires { AreThere (last_of kind) numbers.items }
        ensures { result ≡ renumbered self kind numbers.items }
    {
        let mut changed = self;
        match kind {
            PartKind::Pilot => changed.pilots = numbers,
            PartKind::Comparing => changed.comparing = numbers,
            PartKind::Storage => changed.storage = numbers,
            PartKind::Split => changed.splits = numbers,
            PartKind::Indicate(ControlLevel::Minor) => changed.minor = numbers,
            PartKind::Indicate(ControlLevel::Intermediate) => changed.intermediate = numbers,
            PartKind::Indicate(ControlLevel::Major) => changed.major = numbers,
        }
        changed
    }

    /// Whether each of these things has a part of its own, and no other part is told.
    pub(crate) fn are_for(&self, parts: &Parts) -> bool
        ensures { IsTrue result ↔ AreNumbersOf parts.now self.now }
    {
        are_numbers(self.pilots(), parts.pilots().len(), 16)
            && are_numbers(self.comparing(), parts.comparing().len(), 30)
            && are_numbers(self.storage(), parts.storage().len(), 4)
            && are_numbers(self.splits(), parts.splits().len(), 16)
            && self.are_at(parts, ControlLevel::Minor)
            && self.are_at(parts, ControlLevel::Intermediate)
            && self.are_at(parts, ControlLevel::Major)
    }

    /// Whether these are the parts 1, 2 and so on of each kind, for these things in their order.
    pub(crate) fn are_in_order(&self, parts: &Parts) -> bool
        ensures { IsTrue result ↔ AreInOrder parts.now self.now }
    {
        are_first(self.pilots(), parts.pilots().len())
            && are_first(self.comparing(), parts.comparing().len())
            && are_first(self.storage(), parts.storage().len())
            && are_first(self.splits(), parts.splits().len())
            && self.are_first_at(parts, ControlLevel::Minor)
            && self.are_first_at(parts, ControlLevel::Intermediate)
            && self.are_first_at(parts, ControlLevel::Major)
    }

    /// Whether the indicate positions 1, 2 and so on serve the columns that are indicated at a level.
    fn are_first_at(&self, parts: &Parts, level: ControlLevel) -> bool
        ensures { IsTrue result ↔ (numbers_of self.now (Indicate level) ≡ range_with_len 1 (length (indicate_at parts.now level))) }
    {
        are_first(self.indicate(level), parts.indicate(level).len())
    }

    /// Whether each of the columns that are indicated at a level has a position of its own.
    fn are_at(&self, parts: &Parts, level: ControlLevel) -> bool
        ensures { IsTrue result ↔ AreNumbers 30 (length (indicate_at parts.now level)) (numbers_of self.now (Indicate level)) }
    {
        are_numbers(self.indicate(level), parts.indicate(level).len(), 30)
    }
}

// The numbers 1, 2 and so on, as many as there are things, of which there are no more than parts.
fn first_numbers(alloc: Global, things: usize, last: usize) -> Result<Vec<u8>, AllocError>
    requires few { things ≤ last }
    requires small { last ≤ 255 }
    ensures value { IfOk result (λ list. list.items ≡ range_with_len 1 things) }
    ensures there { IfOk result (λ list. AreThere last list.items) }
{
    let mut list = Vec::new(alloc);
    for place in 0..things {
        list.push(place as u8 + 1)?;
    }
    Ok(list)
}

// Whether these are the numbers 1, 2 and so on, as many as there are things.
fn are_first(numbers: &[u8], things: usize) -> bool
    ensures { IsTrue result ↔ (numbers.now ≡ range_with_len 1 things) }
{
    if numbers.len() != things {
        return false;
    }
    for (place, number) in numbers.iter().enumerate() {
        if usize::from(*number) != place + 1 {
            return false;
        }
    }
    true
}

// Whether each of so many things has a part of its own, of a machine that has so many parts.
fn are_numbers(numbers: &[u8], things: usize, last: u8) -> bool
    ensures { IsTrue result ↔ AreNumbers last things numbers.now }
{
    numbers.len() == things && are_there(numbers, last) && are_apart(numbers)
}

// Whether a machine that has so many parts has each of these.
fn are_there(numbers: &[u8], last: u8) -> bool
    ensures { IsTrue result ↔ AreThere last numbers.now }
{
    numbers.iter().all(|number| 1 <= *number && *number <= last)
}

// Whether no part is told twice.
fn are_apart(numbers: &[u8]) -> bool
    ensures { IsTrue result ↔ AreApart numbers.now }
{
    for (place, number) in numbers.iter().enumerate() {
        if numbers[..place].contains(number) {
            return false;
        }
    }
    true
}
