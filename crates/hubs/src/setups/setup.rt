//! Setups of the panel.

ghost use Rattle.std.specs.Prelude.{◌≡◌, ◌<◌, OnOk, OnErr, Some, vec_len};
ghost use Rattle.hubs.specs.SetupsWords.Rows.{SameRows, RowGains};
ghost use Rattle.hubs.specs.Carries.{do_carries_agree, may_carry};

use crate::setups::fault::SetupFault;
use crate::setups::tape::Tape;
use crate::{Group, Hub, JACKS, Jack, carry_into, carry_out_of, is_one_group};
use smallvec::SmallVec;
use std::alloc::{AllocError, Global};
use std::marker::Model;

/// A setup of the panel: its wires, its plugged jacks and its carriage tape.
///
/// A wire leads from an exit to an entry, both in range. Any number of wires may start or end at a hub, but for carries: a
/// carry exit leads to one carry entry at most and to nothing else, and a carry entry is fed by one carry exit at most and by
/// nothing else. Both are of one counter group, or of two groups of 8 positions; three groups are never joined.
pub struct Setup {
    tape: Tape,
    jacks: [bool; JACKS],
    // The numbers of the entries that the wires of an exit lead to, by the exit's number.
    wires: Vec<SmallVec<u16, 4>>,
}

// By hand, so that a function that drops one calls this, and doesn't drop its parts one by one.
impl Drop for Setup {
    fn drop(self) {
        let Setup {
            tape: _tape,
            jacks: _jacks,
            wires: _wires,
        } = self;
    }
}

impl Model for Setup {
    ghost use Rattle.hubs.specs.SetupsWords.Wiring.{Wiring, IsLawfulSetup};

    ghost Value = { Wiring };

    ghost use Rattle.hubs.specs.SetupsWords.Fields.{wiring_of};

    ghost view = { wiring_of };

    ghost invariant = { λ setup. IsLawfulSetup (wiring_of setup) };
}

impl Setup {
    ghost use Rattle.std.specs.Prelude.{◌≡◌, ◌≢◌, ◌≤◌, ◌↔◌, ℕ, true, false, not, All, Some, Contains, IsTrue};
    ghost use Rattle.std.specs.Prelude.{Ok, IsOk, IsErrOf, IfErr, IsOkUnless, OnOk, OnErr};
    ghost use Rattle.hubs.specs.Hubs.{number_of, is_exit_hub, is_entry_hub, is_hub_in_range};
    ghost use Rattle.hubs.specs.declared.hub.Group.{Group};
    ghost use Rattle.hubs.specs.declared.hub.Hub.TheVariants.{CO};
    ghost use Rattle.hubs.specs.SetupsWords.CarryWires.{stands_beside, stands_with};
    ghost use Rattle.hubs.specs.Jacks.{is_jack_in_range};
    ghost use Rattle.hubs.specs.SetupsWords.Tapes.{has_stop, IsStop, AddsStop, IsCarriageTape};
    ghost use Rattle.hubs.specs.SetupsWords.Wiring.{CanJoin, HasWire, is_plugged, IsEntryNumber, IsLawfulWiring, SameWires, SameJacks, AddsWire, AddsJack};
    ghost use Rattle.hubs.specs.declared.hub.Hub.{Hub};
    ghost use Rattle.hubs.specs.declared.jack.Jack.{Jack};

    /// A setup with no wire and no jack.
    pub fn new(alloc: Global, tape: Tape) -> Setup
        ensures wires { (exit entry : Hub) → ¬ HasWire result exit entry }
        ensures jacks { (jack : Jack) → is_plugged result jack ≡ false }
        ensures tape { result.tape ≡ tape }
    {
        Setup {
            tape,
            jacks: [false; JACKS],
            wires: Vec::new(alloc),
        }
    }

    /// Adds the wire from an exit to an entry, and answers false where it was there.
    ///
    /// Refused with `NotExit` where the first hub is no exit in range, else with `NotEntry` where the second is no
    /// entry in range, else with `CarryRing` where a carry can't go that way: where one of them is a carry hub and the other
    /// none, where they are of two groups that don't both have 8 positions, or where a carry wire that is there doesn't agree
    /// with it; else with `Memory` where no memory is left. A refusal leaves the setup as it was, wires, jacks and tape.
    pub fn add(&mut self, exit: Hub, entry: Hub) -> Result<bool, SetupFault>
        ensures wires { OnOk result (AddsWire self.old self.new exit entry) }
        ensures was_there { (result ≡ Ok false) ↔ HasWire self.old exit entry }
        ensures jacks { SameJacks self.old self.new }
        ensures tape { self.new.tape ≡ self.old.tape }

        ensures not_exit { IsErrOf result SetupFault.NotExit ↔ (is_exit_hub exit ≡ false) }
        ensures not_entry { IsErrOf result SetupFault.NotEntry
            ↔ ((is_exit_hub exit ≡ true) × (is_entry_hub entry ≡ false)) }
        ensures carry { IsErrOf result SetupFault.CarryRing
            ↔ ((is_exit_hub exit ≡ true) × (is_entry_hub entry ≡ true) × ¬ CanJoin self.old exit entry) }
        ensures memory { is_exit_hub exit ≡ true → is_entry_hub entry ≡ true → CanJoin self.old exit entry
            → IsOkUnless result SetupFault.Memory }
        ensures refused { IfErr result (λ fault. fault ≢ SetupFault.Memory → self.new ≡ self.old) }
        ensures same_wires { OnErr result (SameWires self.old self.new) }
    {
        if self.has(exit, entry) {
            return Ok(false);
        }
        let Some(number) = exit.number() else {
            return Err(SetupFault::NotExit);
        };
        if !exit.is_exit() {
            return Err(SetupFault::NotExit);
        }
        let Some(to) = entry.number() else {
            return Err(SetupFault::NotEntry);
        };
        if !entry.is_entry() {
            return Err(SetupFault::NotEntry);
        }
        if !self.can_join(exit, entry) {
            return Err(SetupFault::CarryRing);
        }
        push_entry(&mut self.wires, number as usize, to as u16)?;
        Ok(true)
    }

    /// Plugs a jack in range, and answers false where it was plugged.
    pub fn plug(&mut self, jack: Jack) -> bool
        requires { is_jack_in_range jack ≡ true }
        ensures plugged { AddsJack self.old self.new jack }
        ensures was_there { result ≡ not (is_plugged self.old jack) }
        ensures wires { SameWires self.old self.new }
        ensures tape { self.new.tape ≡ self.old.tape }
    {
        let place = jack.place();
        let was_plugged = self.jacks[place];
        self.jacks[place] = true;
        !was_plugged
    }

    /// Punches a stop of a channel into the carriage tape, and answers false where it was there.
    ///
    /// Refused with `TapeFault` unless the channel is 2 to 11 and the line one of the form. A refusal leaves the setup as it was.
    pub fn punch(&mut self, channel: u8, line: u8) -> Result<bool, SetupFault>
        ensures stops { OnOk result (AddsStop self.old.tape self.new.tape channel line) }
        ensures was_there { (result ≡ Ok false) ↔ (has_stop self.old.tape channel line ≡ true) }
        ensures refused { IfErr result (λ fault. fault ≡ SetupFault.TapeFault) }
        ensures good { IsOk result ↔ IsStop self.old.tape.lines channel line }
        ensures unchanged { OnErr result (self.new.tape ≡ self.old.tape) }
        ensures wires { SameWires self.old self.new }
        ensures jacks { SameJacks self.old self.new }
    {
        self.tape.punch(channel, line)
    }

    /// Whether a wire leads from the exit to the entry.
    pub fn has(&self, exit: Hub, entry: Hub) -> bool
        ensures value { IsTrue result ↔ HasWire self.now exit entry }
        ensures lawful { IsLawfulWiring self.now }
    {
        let entries = self.entries_of(exit);
        match entry.number() {
            Some(number) => entries.contains(&(number as u16)),
            None => false,
        }
    }

    /// The numbers of the entries that the wires of an exit lead to, in no stated order; none for a hub that is no exit.
    pub fn entries_of(&self, exit: Hub) -> &[u16]
        ensures value { (entry : Hub) (number : ℕ) → number_of entry ≡ Some number
            → Contains result.now number ↔ HasWire self.now exit entry }
        ensures entries { All IsEntryNumber result.now }
        ensures lawful { IsLawfulWiring self.now }
    {
        match exit.number() {
            Some(number) if (number as usize) < self.wires.len() =>
                self.wires[number as usize].as_slice(),
            _ => &[],
        }
    }

    /// Whether the jack is plugged; false for a jack out of range.
    pub fn has_jack(&self, jack: Jack) -> bool
        ensures { result ≡ is_plugged self.now jack }
    {
        jack.in_range() && self.jacks[jack.place()]
    }

    /// The setup, and what every setup is: its wires are some that the panel can have, and its form is one of a tape.
    pub fn known(&self) -> &Setup
        ensures value { result.now ≡ self.now }
        ensures wires { IsLawfulWiring self.now }
        ensures form { IsCarriageTape self.now.tape }
    {
        // Read for the proof alone: it saves each reader of a setup a test of its wires and of its form.
        let _tape = self.tape.known();
        self
    }

    // Whether a wire may be added as far as carries go.
    fn can_join(&self, exit: Hub, entry: Hub) -> bool
        ensures joins { result ≡ true → CanJoin self.now exit entry }
        ensures refused { result ≡ false → ¬ CanJoin self.now exit entry }
    {
        match (carry_out_of(exit), carry_into(entry)) {
            (Some(from), Some(to)) => may_carry(from, to) && self.stands_with_all(from, to),
            (None, None) => true,
            (None, Some(_)) | (Some(_), None) => false,
        }
    }

    // Whether a carry wire between two groups agrees with all carry wires that are there.
    fn stands_with_all(&self, from: Group, to: Group) -> bool
        ensures agrees { result ≡ true → (group : Group) → is_hub_in_range (CO group) ≡ true → stands_beside self.now from to group ≡ true }
        ensures found { result ≡ false → (group : Group) × (stands_beside self.now from to group ≡ false) }
    {
        // The numbers of the carry exits.
        for number in 359..391 {
            if !self.stands_at(from, to, number) {
                return false;
            }
        }
        true
    }

    // Whether it agrees with all that lead between one of its two groups and the group whose carry exit has this number.
    fn stands_at(&self, from: Group, to: Group, number: u32) -> bool
        ensures agrees { result ≡ true → (group : Group) → number_of (CO group) ≡ Some number → stands_beside self.now from to group ≡ true }
        ensures found { result ≡ false → (group : Group) × (stands_beside self.now from to group ≡ false) }
    {
        let Some(exit) = Hub::of_number(number) else {
            return true;
        };
        match carry_out_of(exit) {
            Some(group) => self.stands_beside(from, to, group),
            None => true,
        }
    }

    // Whether it agrees with all that lead between one of its two groups and a further one.
    fn stands_beside(&self, from: Group, to: Group, group: Group) -> bool
        ensures { result ≡ stands_beside self.now from to group }
    {
        self.stands_with(from, to, from, group)
            && self.stands_with(from, to, group, to)
            && self.stands_with(from, to, to, group)
            && self.stands_with(from, to, group, from)
    }

    // Whether it agrees with another one, or that is not there.
    fn stands_with(&self, from: Group, to: Group, other: Group, next: Group) -> bool
        ensures { result ≡ stands_with self.now from to other next }
    {
        !self.has(Hub::CO(other), Hub::CI(next)) || do_carries_agree(from, to, other, next)
    }

    /// The carriage tape.
    pub fn tape(&self) -> &Tape
        ensures value { result.now ≡ self.now.tape }
        ensures form { IsCarriageTape self.now.tape }
    {
        self.tape.known()
    }
}

// Whether two carry wires agree: they leave one group exactly if they enter one, and the second leaves the group that the first
// enters exactly if it enters the one that the first leaves.
fn do_carries_agree(from: Group, to: Group, other: Group, next: Group) -> bool
    ensures { result ≡ do_carries_agree from to other next }
{
    (is_one_group(from, other) == is_one_group(to, next))
        && (is_one_group(to, other) == is_one_group(from, next))
}

// Whether a carry may leave one group and enter another, as far as these two go.
fn may_carry(from: Group, to: Group) -> bool
    ensures { result ≡ may_carry (Some from) (Some to) }
{
    is_one_group(from, to) || (from.width == 8 && to.width == 8)
}

// Makes places up to the given one, those that are new without an entry. Where memory runs out, some of them are made.
fn make_places(wires: &mut Vec<SmallVec<u16, 4>>, place: usize) -> Result<(), AllocError>
    ensures made { OnOk result (place < vec_len wires.new) }
    ensures same { SameRows wires.old.items wires.new.items }
{
    while wires.len() <= place {
        let entries = SmallVec::new(*wires.allocator());
        wires.push(entries)?;
    }
    Ok(())
}

// Writes an entry's number at a place. Where memory runs out, the numbers are as they were.
fn push_entry(wires: &mut Vec<SmallVec<u16, 4>>, place: usize, entry: u16) -> Result<(), AllocError>
    ensures gained { OnOk result (RowGains wires.old.items wires.new.items place entry) }
    ensures refused { OnErr result (SameRows wires.old.items wires.new.items) }
{
    make_places(wires, place)?;
    wires[place].push(entry)?;
    Ok(())
}
