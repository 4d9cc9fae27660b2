//! Where a line leaves the forms of a chart.

ghost use Rattle.std.specs.Prelude.{◌≡◌};
ghost use Rattle.fault_slips.specs.WordSlips.Halts as law;

use crate::line_marks::word;
use crate::line_slips::{Slip, slip_of};
use crate::word_slips::stage::{Stage, behind, first_stage};

/// The places of words behind the first one: no form has a word at the last one.
const PLACES: [usize; 12] = [1, 2, 3, 4, 5, 6, 7, 8, 9, 10, 11, 12];

/// Where a line leaves the forms: the place of a word that no form has behind those before it, from 0, and what a form has there.
#[derive(Clone, Copy, Debug, PartialEq, Eq)]
pub struct Halt {
    /// The place of the word; that behind the last one, if words are missing.
    pub place: usize,
    /// What a form has there.
    pub stage: Stage,
}

/// The first of some places at which no form has the word of a line, from a stage on.
#[tactic(auto, unfolding(crate::specs::WordSlips::Halts::halt_among))]
fn halt_among(places: &[usize], first: Stage, line: &[u8]) -> Option<Halt>
    ensures { result ≡ law.halt_among places.now first line.now }
{
    let mut stage = first;
    for place in places {
        match behind(stage, word(line, *place)) {
            Some(next) => stage = next,
            None => {
                return Some(Halt {
                    place: *place,
                    stage,
                });
            }
        }
    }
    None
}

/// Where a line leaves the forms behind its first word, if that begins one.
fn halt_behind(first: Option<Stage>, line: &[u8]) -> Option<Halt>
    ensures { result ≡ law.halt_behind first line.now }
{
    halt_among(&PLACES, first?, line)
}

/// Whether the bytes of a line tell no slip.
fn is_other(slip: Slip) -> bool
    ensures { result ≡ law.is_other slip }
{
    matches!(slip, Slip::Other)
}

/// Where a line leaves the forms, if its bytes tell no slip.
#[tactic(auto, unfolding(crate::specs::WordSlips::Halts::halt_of))]
pub(crate) fn halt_of(line: &[u8]) -> Option<Halt>
    ensures { result ≡ law.halt_of line.now }
{
    if is_other(slip_of(line)) {
        halt_behind(first_stage(word(line, 0)), line)
    } else {
        None
    }
}
