//! How much is missing and extra.

ghost use Rattle.cli_matching.specs.MatchTexts.Counts.{AreCountsOf, TellsCounts};

use match_panels::differences::panel_progress::forms;
use match_panels::differences::size;
use match_panels::matching::Matching;

/// How much is missing and how much is extra: wires, jacks and stops, and the form, where it is another.
#[derive(Clone, Copy, Debug, PartialEq, Eq)]
pub struct Counts {
    /// How much is missing.
    pub missing: u32,
    /// How much is extra.
    pub extra: u32,
}

/// How much is missing and extra, by what is found of a setup: the wires, jacks and stops of each difference, and one more where the
/// form is not that of the chart. Nothing, where the setup is wired for the chart.
pub(crate) fn counts_of(matching: &Matching) -> Counts
    ensures { AreCountsOf matching.now result }
{
    match matching {
        Matching::Matched { .. } => Counts {
            missing: 0,
            extra: 0,
        },
        Matching::Differs { missing, extra, .. } => {
            let forms = forms(missing.tape(), extra.tape());
            Counts {
                missing: size(missing) + forms,
                extra: size(extra) + forms,
            }
        }
    }
}

/// How much is missing and extra, where a setup is not wired for the chart.
pub fn told_counts(matching: &Matching) -> Option<Counts>
    ensures { TellsCounts matching.now result }
{
    match matching {
        Matching::Matched { .. } => None,
        Matching::Differs { .. } => Some(counts_of(matching)),
    }
}
