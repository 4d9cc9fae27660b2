//! Planning charts as they were read.

use crate::charts::statement::Statement;
use std::marker::Model;

/// A line of a chart that says something.
#[derive(Drop)]
pub struct Line {
    /// Its number in the text, from 1.
    pub number: u16,
    /// What it says.
    pub statement: Statement,
}

/// The versions of the language of planning charts, by the number on line 1.
#[derive(Clone, Copy, Debug, PartialEq, Eq)]
pub enum Version {
    /// `CHART407 1`: nothing is said of how many counter groups a total takes.
    First,
    /// `CHART407 2`: a total that takes two coupled counter groups bears the word COUPLED.
    Second,
}

/// A planning chart as its text says it.
///
/// Contracts see it as its version, its lines in order, the numbers of those whose total bears the word COUPLED, and the number
/// of the line END; the lines' numbers rise.
pub struct RawChart {
    version: Version,
    lines: Vec<Line>,
    coupled: Vec<u16>,
    end: u16,
}

// By hand, so that a function that drops one calls this, and doesn't drop its parts one by one.
impl Drop for RawChart {
    fn drop(self) {
        let RawChart {
            version: _version,
            lines: _lines,
            coupled: _coupled,
            end: _end,
        } = self;
    }
}

impl Model for RawChart {
    ghost use Rattle.chart_lines.specs.ChartsWords.Chart.{Chart, NumbersRise};

    ghost Value = { Chart };

    ghost view = { λ chart. record {
      version = chart.version;
      lines = chart.lines.items;
      coupled = chart.coupled.items;
      end = chart.end;
    } };

    ghost invariant = { λ chart. NumbersRise chart.lines.items chart.end };
}

impl RawChart {
    ghost use Rattle.std.specs.Prelude.{◌≡◌};
    ghost use Rattle.chart_lines.specs.ChartsWords.Chart.{NumbersRise};

    /// The chart of a version and of these lines, the numbers of which rise up to that of END. The totals of the lines with the
    /// numbers of `coupled` bear the word COUPLED.
    pub fn new(version: Version, lines: Vec<Line>, coupled: Vec<u16>, end: u16) -> Self
        requires { NumbersRise lines.items end }
        ensures version { result.version ≡ version }
        ensures lines { result.lines ≡ lines.items }
        ensures coupled { result.coupled ≡ coupled.items }
        ensures end { result.end ≡ end }
    {
        RawChart {
            version,
            lines,
            coupled,
            end,
        }
    }

    /// The version of its language.
    pub fn version(&self) -> Version
        ensures { result ≡ self.now.version }
    {
        self.version
    }

    /// The lines that say something, in order.
    pub fn lines(&self) -> &[Line]
        ensures value { result.now ≡ self.now.lines }
        ensures rising { NumbersRise self.now.lines self.now.end }
    {
        self.lines.as_slice()
    }

    /// The numbers of the lines whose total bears the word COUPLED.
    pub fn coupled(&self) -> &[u16]
        ensures { result.now ≡ self.now.coupled }
    {
        self.coupled.as_slice()
    }

    /// The number of the line END.
    pub fn end(&self) -> u16
        ensures { result ≡ self.now.end }
    {
        self.end
    }
}
