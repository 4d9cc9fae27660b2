//! All that a chart asks of the machine.

use crate::wanted::chart_totals::totals_of;
use crate::wanted::count::{Capacity, wanted_at};
use crate::wanted::parts::Parts;
use crate::wanted::total::Total;
use crate::wanted::unit::{LineKind, lines_of_kind};
use chart_rules::Chart;
use std::alloc::{AllocError, Global};
use std::marker::Model;

/// All that a chart asks of the machine.
#[derive(Drop)]
pub struct Wanted {
    totals: Vec<Total>,
    // The lines of the total texts that are too wide for a storage unit.
    wide_texts: Vec<u16>,
    parts: Parts,
}

impl Model for Wanted {
    ghost use Rattle.chart_plans.specs.WantedWords.Wanted.{Wanted as Lists};
    ghost use Rattle.chart_plans.specs.WantedWords.Totals.{NeedsFit};
    ghost use Rattle.chart_plans.specs.WantedWords.HelperLines.{FirstIsLowest};

    ghost Value = { Lists };

    ghost view = { λ wanted. record {
      totals = wanted.totals.items;
      wide_texts = wanted.wide_texts.items;
      parts = wanted.parts;
    } };

    ghost invariant = { λ wanted. record {
      needs : NeedsFit wanted.totals.items;
      lowest : FirstIsLowest wanted.wide_texts.items;
    } };
}

impl Wanted {
    ghost use Rattle.std.specs.Prelude.{◌≡◌, ◌<◌, IfOk, length};
    ghost use Rattle.chart_plans.specs.WantedWords.Totals.{NeedsFit};
    ghost use Rattle.chart_plans.specs.WantedWords.Wanted.{wanted_of};
    ghost use Rattle.chart_plans.specs.WantedWords.Counts.{count_wanted};
    ghost use Rattle.chart_plans.specs.WantedWords.Units.{IsLowestOf};

    /// What a chart asks for.
    pub fn of(alloc: Global, chart: &Chart) -> Result<Wanted, AllocError>
        ensures { IfOk result (λ wanted. wanted ≡ wanted_of chart.now.lines) }
    {
        let totals = totals_of(alloc, chart)?;
        let wide_texts = lines_of_kind(alloc, chart, LineKind::WideText)?;
        let parts = Parts::of(alloc, chart)?;
        Ok(Wanted {
            totals,
            wide_texts,
            parts,
        })
    }

    /// The totals, in the order of their lines. None needs more than 16 positions.
    pub fn totals(&self) -> &[Total]
        ensures value { result.now ≡ self.now.totals }
        ensures needs { NeedsFit self.now.totals }
    {
        self.totals.as_slice()
    }

    /// What the parts other than the counter groups are to serve.
    pub fn into_parts(self) -> Parts
        ensures { result ≡ self.parts }
    {
        self.parts
    }

    /// How many of a capacity are wanted.
    pub fn count(&self, capacity: Capacity) -> usize
        ensures { result ≡ count_wanted capacity self.now }
    {
        match capacity {
            Capacity::Counters(width) => wanted_at(width, self.totals.as_slice()),
            Capacity::Pilots => self.parts.pilots().len(),
            Capacity::Comparing => self.parts.comparing().len(),
            Capacity::StorageWidth => self.wide_texts.len(),
            Capacity::StorageUnits => self.parts.storage().len(),
            Capacity::Splits => self.parts.splits().len(),
            Capacity::Indicate(level) => self.parts.indicate(level).len(),
        }
    }

    /// The lowest line of a total text that is too wide for a storage unit; there is one.
    pub fn wide_text(&self) -> u16
        requires { 0 < length self.now.wide_texts }
        ensures { IsLowestOf self.now.wide_texts result }
    {
        self.wide_texts[0]
    }
}
