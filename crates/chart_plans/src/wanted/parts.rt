//! What the parts of the machine other than the counter groups serve.

use crate::wanted::pilot::{are_pilots, pilots_of};
use crate::wanted::position::{ColumnUse, Position, are_positions_of, positions_of};
use crate::wanted::unit::{LineKind, are_lines_of_kind, lines_of_kind};
use chart_lines::charts::{ControlLevel, Name};
use chart_rules::Chart;
use std::alloc::{AllocError, Global};
use std::marker::Model;

// What the indicate positions serve, by level.
struct ByLevel {
    minor: Vec<Position>,
    intermediate: Vec<Position>,
    major: Vec<Position>,
}

// By hand, as for `Parts`.
impl Drop for ByLevel {
    fn drop(self) {
        let ByLevel {
            minor: _minor,
            intermediate: _intermediate,
            major: _major,
        } = self;
    }
}

impl ByLevel {
    ghost use Rattle.std.specs.Prelude.{◌≡◌, IfOk};
    ghost use Rattle.chart_lines.specs.declared.charts.level.ControlLevel.TheVariants as control;
    ghost use Rattle.chart_plans.specs.WantedWords.Positions.{indicate_of};

    // What they serve for a chart.
    fn of(alloc: Global, chart: &Chart) -> Result<ByLevel, AllocError>
        ensures minor { IfOk result (λ served. served.minor.items ≡ indicate_of control.Minor chart.now.lines) }
        ensures intermediate { IfOk result (λ served. served.intermediate.items ≡ indicate_of control.Intermediate chart.now.lines) }
        ensures major { IfOk result (λ served. served.major.items ≡ indicate_of control.Major chart.now.lines) }
    {
        let minor = positions_of(alloc, chart, ColumnUse::Indicate(ControlLevel::Minor))?;
        let intermediate = positions_of(
            alloc,
            chart,
            ColumnUse::Indicate(ControlLevel::Intermediate),
        )?;
        let major = positions_of(alloc, chart, ColumnUse::Indicate(ControlLevel::Major))?;
        Ok(ByLevel {
            minor,
            intermediate,
            major,
        })
    }
}

/// What the pilots, comparing positions, storage units, column splits and indicate positions serve, in the order in which a chart
/// asks for it.
pub struct Parts {
    // The names of the amounts.
    pilots: Vec<Name>,
    comparing: Vec<Position>,
    // The lines of the total texts.
    storage: Vec<u16>,
    // The lines of the amounts.
    splits: Vec<u16>,
    indicate: ByLevel,
}

// By hand, so that a function that drops one calls this, and doesn't drop its parts one by one.
impl Drop for Parts {
    fn drop(self) {
        let Parts {
            pilots: _pilots,
            comparing: _comparing,
            storage: _storage,
            splits: _splits,
            indicate: _indicate,
        } = self;
    }
}

impl Model for Parts {
    ghost use Rattle.chart_plans.specs.WantedWords.Wanted.{Parts as Lists};

    ghost Value = { Lists };

    ghost view = { λ parts. record {
      pilots = parts.pilots.items;
      comparing = parts.comparing.items;
      storage = parts.storage.items;
      splits = parts.splits.items;
      minor = parts.indicate.minor.items;
      intermediate = parts.indicate.intermediate.items;
      major = parts.indicate.major.items;
    } };
}

impl Parts {
    ghost use Rattle.std.specs.Prelude.{◌≡◌, ◌↔◌, IfOk, IsTrue};
    ghost use Rattle.chart_plans.specs.WantedWords.Wanted.{parts_of, indicate_at};

    /// What they serve for a chart.
    pub(crate) fn of(alloc: Global, chart: &Chart) -> Result<Parts, AllocError>
        ensures { IfOk result (λ parts. parts ≡ parts_of chart.now.lines) }
    {
        let pilots = pilots_of(alloc, chart)?;
        let comparing = positions_of(alloc, chart, ColumnUse::Comparing)?;
        let storage = lines_of_kind(alloc, chart, LineKind::TotalText)?;
        let splits = lines_of_kind(alloc, chart, LineKind::SplitAmount)?;
        let indicate = ByLevel::of(alloc, chart)?;
        Ok(Parts {
            pilots,
            comparing,
            storage,
            splits,
            indicate,
        })
    }

    /// Whether they serve what a chart asks for.
    pub fn are_for(&self, chart: &Chart) -> bool
        ensures { IsTrue result ↔ (self.now ≡ parts_of chart.now.lines) }
    {
        are_pilots(self.pilots(), chart)
            && are_positions_of(self.comparing(), chart, ColumnUse::Comparing)
            && are_lines_of_kind(self.storage(), chart, LineKind::TotalText)
            && are_lines_of_kind(self.splits(), chart, LineKind::SplitAmount)
            && are_positions_of(
                self.indicate(ControlLevel::Minor),
                chart,
                ColumnUse::Indicate(ControlLevel::Minor),
            )
            && are_positions_of(
                self.indicate(ControlLevel::Intermediate),
                chart,
                ColumnUse::Indicate(ControlLevel::Intermediate),
            )
            && are_positions_of(
                self.indicate(ControlLevel::Major),
                chart,
                ColumnUse::Indicate(ControlLevel::Major),
            )
    }

    /// The names of the amounts that the pilots serve.
    pub fn pilots(&self) -> &[Name]
        ensures { result.now ≡ self.now.pilots }
    {
        self.pilots.as_slice()
    }

    /// What the comparing positions serve.
    pub fn comparing(&self) -> &[Position]
        ensures { result.now ≡ self.now.comparing }
    {
        self.comparing.as_slice()
    }

    /// The lines of the total texts that the storage units serve.
    pub fn storage(&self) -> &[u16]
        ensures { result.now ≡ self.now.storage }
    {
        self.storage.as_slice()
    }

    /// The lines of the amounts that the column splits serve.
    pub fn splits(&self) -> &[u16]
        ensures { result.now ≡ self.now.splits }
    {
        self.splits.as_slice()
    }

    /// What the indicate positions of a level serve.
    pub fn indicate(&self, level: ControlLevel) -> &[Position]
        ensures { result.now ≡ indicate_at self.now level }
    {
        match level {
            ControlLevel::Minor => self.indicate.minor.as_slice(),
            ControlLevel::Intermediate => self.indicate.intermediate.as_slice(),
            ControlLevel::Major => self.indicate.major.as_slice(),
        }
    }
}
