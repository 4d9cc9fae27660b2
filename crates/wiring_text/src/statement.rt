//! What a line of a wiring chart says.

use hubs::Jack;
use hubs::hub_table::{Letters, Numbers};

/// A hub as it is written: its letters and as many numbers as hubs of these letters have, each 0 to 999.
#[derive(Clone, Copy, Debug, PartialEq, Eq)]
pub struct HubName {
    /// Its letters.
    pub letters: Letters,
    /// Its numbers.
    pub numbers: Numbers,
}

/// The versions of the language of wiring charts, by the number on line 1.
#[derive(Clone, Copy, Debug, PartialEq, Eq)]
pub enum Version {
    /// `WIRING407 1`: all wires are WIRE lines.
    First,
    /// `WIRING407 2`: the wires between carry exits and carry entries are RING and COUPLE lines.
    Second,
}

/// The numbers of a form as they are written, 0 to 999 each.
#[derive(Clone, Copy, Debug, PartialEq, Eq)]
pub struct FormNumbers {
    /// How many lines the form has.
    pub lines: u16,
    /// Its first line.
    pub first: u16,
    /// Its overflow line.
    pub overflow: u16,
}

/// What a line between FORM and END says.
#[derive(Clone, Copy, Debug, PartialEq, Eq)]
pub enum Statement {
    /// `STOP`: a stop of a channel, 2 to 11, at a line, 0 to 999.
    Stop(u8, u16),
    /// `JACK`: a jack that the panel has.
    Plug(Jack),
    /// `WIRE`, and in version 2 `RING` and `COUPLE`: a wire from the first hub to the second.
    Wire(HubName, HubName),
}
