//! Which cycles print.

use crate::cycle::{Cycle, Ordinal, ProgramLevel};
use hubs::Jack;
use hubs::setups::Setup;

/// The cycles of a setup that print, as the jacks LIST, TOTAL and HEAD say.
#[derive(Clone, Copy, Debug, PartialEq, Eq)]
pub struct Printing {
    pub(crate) cards: bool,
    pub(crate) minor_totals: bool,
    pub(crate) intermediate_totals: bool,
    pub(crate) major_totals: bool,
    pub(crate) final_totals: bool,
    pub(crate) first_heading: bool,
    pub(crate) second_heading: bool,
    pub(crate) third_heading: bool,
}

impl Printing {
    ghost use Rattle.std.specs.Prelude.{◌≡◌};
    ghost use Rattle.net.specs.Printing.{printing_of, prints, prints_total, prints_heading};

    /// The cycles of a setup that print.
    pub fn of(setup: &Setup) -> Self
        ensures { result ≡ printing_of setup.now }
    {
        Printing {
            cards: setup.has_jack(Jack::List),
            minor_totals: setup.has_jack(Jack::Total(1)),
            intermediate_totals: setup.has_jack(Jack::Total(2)),
            major_totals: setup.has_jack(Jack::Total(3)),
            final_totals: setup.has_jack(Jack::Total(4)),
            first_heading: setup.has_jack(Jack::Head(1)),
            second_heading: setup.has_jack(Jack::Head(2)),
            third_heading: setup.has_jack(Jack::Head(3)),
        }
    }

    /// Whether a cycle prints: a card cycle under LIST, the third program cycle of a level under its TOTAL, a heading cycle
    /// under its HEAD, and no other.
    pub fn prints(&self, cycle: Cycle) -> bool
        ensures { result ≡ prints self.now cycle }
    {
        match cycle {
            Cycle::Card => self.cards,
            Cycle::Prog(level, Ordinal::Third) => self.prints_total(level),
            Cycle::Head(heading) => self.prints_heading(heading),
            Cycle::RunIn | Cycle::Prog(_, Ordinal::First | Ordinal::Second) => false,
        }
    }

    // Whether the totals of a level are printed.
    fn prints_total(&self, level: ProgramLevel) -> bool
        ensures { result ≡ prints_total self.now level }
    {
        match level {
            ProgramLevel::Minor => self.minor_totals,
            ProgramLevel::Intermediate => self.intermediate_totals,
            ProgramLevel::Major => self.major_totals,
            ProgramLevel::Final => self.final_totals,
        }
    }

    // Whether a heading line is printed.
    fn prints_heading(&self, heading: Ordinal) -> bool
        ensures { result ≡ prints_heading self.now heading }
    {
        match heading {
            Ordinal::First => self.first_heading,
            Ordinal::Second => self.second_heading,
            Ordinal::Third => self.third_heading,
        }
    }
}
