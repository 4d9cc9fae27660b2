//! Plans.

use crate::plans::assignment::has_assignment;
use crate::plans::counter::TotalCounter;
use crate::plans::part_numbers::PartNumbers;
use crate::plans::places::{number_at, place_of_line, place_of_name, place_of_position};
use crate::wanted::{Parts, Position, has_narrow_texts, total_place};
use chart_lines::charts::{ControlLevel, Name};
use chart_rules::Chart;
use std::alloc::{AllocError, Global};
use std::marker::Model;

/// Which counter, pilot, comparing position, storage unit, column split and indicate position serves what of a chart.
///
/// Contracts see a counter for each TOTAL amount, in the order of their lines; what the other parts serve, in the order in which the
/// chart asks for it; and the numbers of the parts that serve it. What the other parts serve is no more than the standard machine has
/// parts. Whether the counters and the numbers go with that, and with a chart, [`serves`](Plan::serves) tells;
/// [`is_for`](Plan::is_for) tells whether only the counters are chosen.
pub struct Plan {
    counters: Vec<TotalCounter>,
    parts: Parts,
    numbers: PartNumbers,
}

// By hand, so that a function that drops one calls this, and doesn't drop its parts one by one.
impl Drop for Plan {
    fn drop(self) {
        let Plan {
            counters: _counters,
            parts: _parts,
            numbers: _numbers,
        } = self;
    }
}

impl Model for Plan {
    ghost use Rattle.chart_plans.specs.PlansWords.Plans.{Lists, IsWithinMachine};

    ghost Value = { Lists };

    ghost view = { λ plan. record { counters = plan.counters.items; parts = plan.parts; numbers = plan.numbers } };

    ghost invariant = { λ plan. IsWithinMachine plan.parts };
}

impl Plan {
    ghost use Rattle.std.specs.Prelude.{◌≡◌, ◌↔◌, ◌≤◌, ◌==◌, IsTrue, IfOk, IfSome};
    ghost use Rattle.chart_lines.specs.ChartsWords.Name.{is_same_name};
    ghost use Rattle.chart_plans.specs.WantedWords.ChartTotals.{totals_of};
    ghost use Rattle.chart_plans.specs.WantedWords.Wanted.{indicate_at};
    ghost use Rattle.chart_plans.specs.PlansWords.PartNumbers.{AreInOrder, number_for, numbers_of};
    ghost use Rattle.chart_plans.specs.declared.plans.part_numbers.PartKind.TheVariants.{Indicate};
    ghost use Rattle.chart_plans.specs.PlansWords.Plans.{IsFor, IsWithinMachine, ServesChart, counter_on};
    ghost use Rattle.chart_plans.specs.WantedWords.Positions.{is_same_position};

    /// The plan of these counters, and of other parts with these numbers. The other parts serve no more things than the standard machine
    /// has parts.
    pub fn of(counters: Vec<TotalCounter>, parts: Parts, numbers: PartNumbers) -> Plan
        requires { IsWithinMachine parts }
        ensures counters { result.counters ≡ counters.items }
        ensures parts { result.parts ≡ parts }
        ensures numbers { result.numbers ≡ numbers }
    {
        Plan {
            counters,
            parts,
            numbers,
        }
    }

    /// The plan of these counters, in which the parts 1, 2 and so on of each other kind serve what is asked of it, in its order: no more
    /// things than the standard machine has parts.
    pub fn in_order(
        alloc: Global,
        counters: Vec<TotalCounter>,
        parts: Parts,
    ) -> Result<Plan, AllocError>
        requires { IsWithinMachine parts }
        ensures counters { IfOk result (λ plan. plan.counters ≡ counters.items) }
        ensures parts { IfOk result (λ plan. plan.parts ≡ parts) }
        ensures numbers { IfOk result (λ plan. AreInOrder parts plan.numbers) }
    {
        let numbers = PartNumbers::in_order(alloc, &parts)?;
        Ok(Plan::of(counters, parts, numbers))
    }

    /// Whether this plan serves the chart: each total has a counter of its own of the standard machine that is enough for
    /// it, and there are no more counters; the other parts serve what the chart asks for, each thing by a part of its own of the
    /// standard machine, whichever that is; and no text on a total line of the chart is wider than a storage unit, which has 16 columns.
    pub fn serves(&self, chart: &Chart) -> bool
        ensures { IsTrue result ↔ ServesChart chart.now.lines self.now }
    {
        let has_counters = has_assignment(self.counters(), chart);
        let has_parts = self.parts.are_for(chart);
        let has_numbers = self.numbers.are_for(&self.parts);
        let has_width = has_narrow_texts(chart);
        has_counters && has_parts && has_numbers && has_width
    }

    /// Whether this is a plan of the chart: it serves the chart, and of each kind of parts but the counter groups the parts 1, 2 and so
    /// on serve what the chart asks for, in its order. Any counter groups do that are enough.
    pub fn is_for(&self, chart: &Chart) -> bool
        ensures { IsTrue result ↔ IsFor chart.now.lines self.now }
    {
        self.serves(chart) && self.numbers.are_in_order(&self.parts)
    }

    /// The counters, one for each TOTAL amount of the chart, in the order of their lines.
    pub fn counters(&self) -> &[TotalCounter]
        ensures { result.now ≡ self.now.counters }
    {
        self.counters.as_slice()
    }

    /// The numbers of the parts other than the counters.
    pub fn numbers(&self) -> &PartNumbers
        ensures { result.now ≡ self.now.numbers }
    {
        &self.numbers
    }

    /// The names of the amounts that the pilots serve, in the order of their FIELD lines.
    pub fn pilots(&self) -> &[Name]
        ensures value { result.now ≡ self.now.parts.pilots }
        ensures within { IsWithinMachine self.now.parts }
    {
        self.parts.pilots()
    }

    /// What the comparing positions serve, in the order of the lines that ask for them.
    pub fn comparing(&self) -> &[Position]
        ensures value { result.now ≡ self.now.parts.comparing }
        ensures within { IsWithinMachine self.now.parts }
    {
        self.parts.comparing()
    }

    /// The lines of the total texts that the storage units serve, in their order.
    pub fn storage(&self) -> &[u16]
        ensures value { result.now ≡ self.now.parts.storage }
        ensures within { IsWithinMachine self.now.parts }
    {
        self.parts.storage()
    }

    /// The lines of the DETAIL amounts that the column splits serve, in their order.
    pub fn splits(&self) -> &[u16]
        ensures value { result.now ≡ self.now.parts.splits }
        ensures within { IsWithinMachine self.now.parts }
    {
        self.parts.splits()
    }

    /// What the indicate positions of a level serve, in the order of the lines that ask for them.
    pub fn indicate(&self, level: ControlLevel) -> &[Position]
        ensures value { result.now ≡ indicate_at self.now.parts level }
        ensures within { IsWithinMachine self.now.parts }
    {
        self.parts.indicate(level)
    }

    /// The counter of the total on a line of the chart, if a total stands there.
    pub fn counter_on(&self, chart: &Chart, line: u16) -> Option<TotalCounter>
        ensures { result ≡ counter_on (totals_of chart.now.lines) self.now.counters line }
    {
        let place = total_place(chart, line)?;
        self.counters().get(place).copied()
    }

    /// The number of the pilot that serves the amount of a name, from 1.
    pub fn pilot_of(&self, name: Name) -> Option<u8>
        ensures value { result ≡ number_for (λ served. is_same_name served name) self.now.parts.pilots self.now.numbers.pilots }
        ensures few { IfSome result (λ number. (1 ≤ number) × (number ≤ 16)) }
    {
        number_at(self.numbers.pilots(), place_of_name(self.pilots(), name))
    }

    /// The number of the comparing position that serves a column of the field of a CONTROL line, from 1.
    pub fn comparing_position(&self, at: Position) -> Option<u8>
        ensures value { result ≡ number_for (λ served. is_same_position served at) self.now.parts.comparing self.now.numbers.comparing }
        ensures few { IfSome result (λ number. (1 ≤ number) × (number ≤ 30)) }
    {
        number_at(
            self.numbers.comparing(),
            place_of_position(self.comparing(), at),
        )
    }

    /// The number of the storage unit that serves the text on a total line of the chart, from 1.
    pub fn storage_unit(&self, line: u16) -> Option<u8>
        ensures value { result ≡ number_for (λ served. served == line) self.now.parts.storage self.now.numbers.storage }
        ensures few { IfSome result (λ number. (1 ≤ number) × (number ≤ 4)) }
    {
        number_at(self.numbers.storage(), place_of_line(self.storage(), line))
    }

    /// The number of the column split that serves the amount on a DETAIL line of the chart, from 1.
    pub fn split_on(&self, line: u16) -> Option<u8>
        ensures value { result ≡ number_for (λ served. served == line) self.now.parts.splits self.now.numbers.splits }
        ensures few { IfSome result (λ number. (1 ≤ number) × (number ≤ 16)) }
    {
        number_at(self.numbers.splits(), place_of_line(self.splits(), line))
    }

    /// The number of the indicate position of a level that serves a column of the field of an INDICATE item, from 1.
    pub fn indicate_position(&self, level: ControlLevel, at: Position) -> Option<u8>
        ensures value { result ≡ number_for (λ served. is_same_position served at) (indicate_at self.now.parts level) (numbers_of self.now.numbers (Indicate level)) }
        ensures few { IfSome result (λ number. (1 ≤ number) × (number ≤ 30)) }
    {
        number_at(
            self.numbers.indicate(level),
            place_of_position(self.indicate(level), at),
        )
    }
}
