//! Sets of hubs: pictures of the panel, and the closed contacts.

ghost use Rattle.std.specs.Prelude.{◌≡◌, ℕ, ◌<◌};
ghost use Rattle.machine_sets.specs.BitSets.Bits.{has_place};
ghost use Rattle.net.specs.HubSets.{HoldsHubsAlone};

use hubs::Hub;
use machine_sets::bit_sets::WORDS;
use std::marker::Model;

/// How many hubs the panel has.
pub const HUBS: usize = 1936;

/// A set of hubs, as the exits that emit at a point or the hubs that are impulsed then.
#[derive(Clone, Copy, Debug, PartialEq, Eq)]
pub struct Picture {
    // The hub with the number h is bit h - 1, counted through the words. The bits after the last hub are 0: so equal sets
    // have equal words.
    pub(crate) words: [u64; WORDS],
}

impl Model for Picture {
    ghost use Rattle.net.specs.HubSets.{HubSet, HoldsHubsAlone};

    ghost Value = { HubSet };

    ghost view = { λ picture. record { words = picture.words } };

    ghost invariant = { λ picture. HoldsHubsAlone picture.words };

    ghost inverse = { λ hubs. record { words = hubs.words } };
}

impl Picture {
    ghost use Rattle.std.specs.Prelude.{◌≡◌, ℕ, ◌+◌, ◌<◌, ◌&&◌, true, false, Some, None};
    ghost use Rattle.hubs.specs.Hubs.{number_of};
    ghost use Rattle.hubs.specs.declared.hub.Hub.{Hub};
    ghost use Rattle.net.specs.HubSets.{has_hub, is_bit, is_hub, is_in_row, is_in_reach, GainsHubs, HoldsHubsAlone};

    /// The empty set.
    pub fn new() -> Self
        ensures { (hub : Hub) → has_hub result hub ≡ false }
    {
        Picture { words: [0; WORDS] }
    }

    /// Its words: the hub with the number h, 1 to 1936, is bit (h - 1) % 64 of word (h - 1) / 64. The bits after the last hub
    /// are 0.
    pub fn words(&self) -> &[u64; WORDS]
        ensures words { result.now ≡ self.now.words }
        ensures hubs { HoldsHubsAlone self.now.words }
    {
        &self.words
    }

    /// Adds a hub. A hub out of range changes nothing.
    #[inline(always)]
    pub fn insert(&mut self, hub: Hub)
        ensures { GainsHubs (is_hub hub) self.old self.new }
    {
        self.insert_where(hub, true);
    }

    /// Adds a hub where the test is true. A hub out of range changes nothing.
    #[inline(always)]
    pub fn insert_where(&mut self, hub: Hub, test: bool)
        ensures { GainsHubs (λ other. test && is_hub hub other) self.old self.new }
    {
        if let Some(number) = hub.number() {
            machine_sets::bit_sets::put_where(&mut self.words, number as usize - 1, test);
        }
    }

    /// Adds a row of up to 128 hubs that follow one another: bit k stands for the hub whose number is the first one's and k.
    /// Bits after the last hub change nothing, and neither does a row from a hub out of range.
    #[inline(always)]
    pub fn insert_row(&mut self, first: Hub, bits: u128)
        ensures { GainsHubs (is_in_row first bits) self.old self.new }
    {
        if let Some(number) = first.number() {
            machine_sets::bit_sets::put_run(&mut self.words, number as usize - 1, bits);
            cut_after_hubs(&mut self.words);
        }
    }

    /// Whether the hub is in the set. A hub out of range is in none.
    #[inline(always)]
    pub fn has(&self, hub: Hub) -> bool
        ensures { result ≡ has_hub self.now hub }
    {
        match hub.number() {
            Some(number) => machine_sets::bit_sets::has(&self.words, number as usize - 1),
            None => false,
        }
    }

    /// Which of the 128 hubs that follow one another from the first one are in the set: bit k stands for the hub whose
    /// number is the first one's and k. The bits after the last hub are 0, and so are all bits where the first hub is out of
    /// range.
    #[inline(always)]
    pub fn row(&self, first: Hub) -> u128
        ensures hubs { (hub : Hub) → is_in_reach first hub ≡ true → is_in_row first result hub ≡ has_hub self.now hub }
        ensures cut { (number k : ℕ) → number_of first ≡ Some number → HUBS < number + k → is_bit result k ≡ false }
        ensures none { number_of first ≡ None → result ≡ 0 }
    {
        match first.number() {
            Some(number) => machine_sets::bit_sets::run(&self.words, number as usize - 1),
            None => 0,
        }
    }
}

// Cuts the bits after the last hub, whose own bit is bit 15 of the last word.
#[inline(always)]
pub(crate) fn cut_after_hubs(words: &mut [u64; WORDS])
    ensures hubs { HoldsHubsAlone words.new }
    ensures kept { (place : ℕ) → place < HUBS → has_place words.new place ≡ has_place words.old place }
{
    words[WORDS - 1] &= 0xffff;
}

/// The closed contacts, as the set of their exits: each contact has an exit of its own.
#[derive(Clone, Copy, Debug, PartialEq, Eq)]
pub struct Contacts {
    exits: Picture,
}

impl Model for Contacts {
    ghost use Rattle.net.specs.HubSets.{HubSet};

    ghost Value = { HubSet };

    ghost view = { λ contacts. contacts.exits };

    ghost inverse = { λ exits. record { exits = exits } };
}

impl Contacts {
    ghost use Rattle.std.specs.Prelude.{◌≡◌, ◌&&◌, false};
    ghost use Rattle.hubs.specs.declared.hub.Hub.{Hub};
    ghost use Rattle.net.specs.HubSets.{has_hub, is_hub, is_in_row, GainsHubs, HoldsHubsAlone};

    /// No contact is closed.
    pub fn new() -> Self
        ensures { (hub : Hub) → has_hub result hub ≡ false }
    {
        Contacts {
            exits: Picture::new(),
        }
    }

    /// The words of the set of exits, as [`Picture::words`].
    pub fn words(&self) -> &[u64; WORDS]
        ensures words { result.now ≡ self.now.words }
        ensures hubs { HoldsHubsAlone self.now.words }
    {
        self.exits.words()
    }

    /// Closes the contact with this exit. A hub out of range changes nothing. Any other hub is held, and is passed
    /// over where no contact leads to it.
    #[inline(always)]
    pub fn insert(&mut self, exit: Hub)
        ensures { GainsHubs (is_hub exit) self.old self.new }
    {
        self.exits.insert(exit);
    }

    /// Closes the contact with this exit where the test is true.
    #[inline(always)]
    pub fn insert_where(&mut self, exit: Hub, test: bool)
        ensures { GainsHubs (λ other. test && is_hub exit other) self.old self.new }
    {
        self.exits.insert_where(exit, test);
    }

    /// Closes a row of up to 128 contacts whose exits follow one another, as [`Picture::insert_row`] adds hubs.
    #[inline(always)]
    pub fn insert_row(&mut self, first: Hub, bits: u128)
        ensures { GainsHubs (is_in_row first bits) self.old self.new }
    {
        self.exits.insert_row(first, bits);
    }

    /// Whether the hub was inserted. A hub out of range never is.
    pub fn has(&self, exit: Hub) -> bool
        ensures { result ≡ has_hub self.now exit }
    {
        self.exits.has(exit)
    }
}
