//! The run of a text and a deck, with the chart that is known of its panel.

use crate::panel_guides::asking::{asked_by_lines, asked_on_panel};
use crate::panel_guides::known_totals::{totals_by_chart, totals_on_panel};
use crate::panel_guides::panels::{PlannedRun, WiredRun, is_wiring_text, planned_run, wired_run};
use card_code::Card;
use explain_wheel_ledgers::TitledAccount;
use fault_lines::faults::Fault;
use hubs::setups::Setup;
use readback_charts::{PanelChart, wired_chart};
use std::alloc::Global;

/// The run of a text and a deck.
pub(crate) enum TextRun {
    /// That of a wiring chart, with the chart that was read off its panel, if the panel is wired for that one.
    Wired {
        /// The panel and the cards.
        run: WiredRun,
        /// The chart.
        read: Option<PanelChart>,
    },
    /// That of a planning chart.
    Planned {
        /// The compiled chart and the cards.
        run: PlannedRun,
    },
}

// By hand, so that a function that drops one calls this, and doesn't drop its parts one by one.
impl Drop for TextRun {
    fn drop(self) {
        match self {
            TextRun::Wired {
                run: _run,
                read: _read,
            } => {}
            TextRun::Planned { run: _run } => {}
        }
    }
}

impl TextRun {
    ghost use Rattle.std.specs.Prelude.{◌≡◌, ◌≢◌, ℕ, List, false, true, IfErr, IfOk};
    ghost use Rattle.fault_lines.specs.declared.faults.fault.Fault.TheVariants.{Memory};
    ghost use Rattle.cli_commands.specs.PanelGuides.Explained.{RefusesTexts};
    ghost use Rattle.cli_commands.specs.PanelGuides.Known.{AreAsked, IsServed, totals_known};
    ghost use Rattle.cli_commands.specs.PanelGuides.Panels.{is_wiring_text};
    ghost use Rattle.cli_commands.specs.PanelGuides.TextRuns.{IsTextRun, cards_of, known_of, setup_of};
    ghost use Rattle.explain_wheel_ledgers.specs.Totals.{AreAccounts};

    // The run of a wiring chart and a deck. The panel is read once.
    fn of_wiring<'a>(alloc: Global, wiring: &[u8], deck: &[u8]) -> Result<TextRun, Fault<'a>>
        requires { is_wiring_text wiring.now ≡ true }
        ensures run { IfOk result (IsTextRun wiring.now deck.now) }
        ensures refused { IfErr result (λ told. told ≢ Memory → RefusesTexts wiring.now deck.now told) }
    {
        let run = wired_run(alloc, wiring, deck)?;
        let read = wired_chart(alloc, &run.setup)?;
        Ok(TextRun::Wired { run, read })
    }

    // The run of a planning chart and a deck.
    fn of_chart<'a>(alloc: Global, chart: &[u8], deck: &[u8]) -> Result<TextRun, Fault<'a>>
        requires { is_wiring_text chart.now ≡ false }
        ensures run { IfOk result (IsTextRun chart.now deck.now) }
        ensures refused { IfErr result (λ told. told ≢ Memory → RefusesTexts chart.now deck.now told) }
    {
        let run = planned_run(alloc, chart, deck)?;
        Ok(TextRun::Planned { run })
    }

    /// The run of a text and a deck.
    ///
    /// # Errors
    ///
    /// The fault of the chart, else of the deck's text, else of its cards for the chart, or the fault of the wiring chart, else of the
    /// deck's text, or `Memory` where a growth was refused.
    pub(crate) fn of<'a>(alloc: Global, text: &[u8], deck: &[u8]) -> Result<TextRun, Fault<'a>>
        ensures run { IfOk result (IsTextRun text.now deck.now) }
        ensures refused { IfErr result (λ told. told ≢ Memory → RefusesTexts text.now deck.now told) }
    {
        if is_wiring_text(text) {
            TextRun::of_wiring(alloc, text, deck)
        } else {
            TextRun::of_chart(alloc, text, deck)
        }
    }

    /// Its panel.
    pub(crate) fn setup(&self) -> &Setup
        ensures { result.now ≡ setup_of self.now }
    {
        match self {
            TextRun::Wired { run, .. } => &run.setup,
            TextRun::Planned { run } => run.compiled.setup(),
        }
    }

    /// Its cards.
    pub(crate) fn cards(&self) -> &[Card]
        ensures { result.now ≡ cards_of self.now }
    {
        match self {
            TextRun::Wired { run, .. } => run.cards.as_slice(),
            TextRun::Planned { run } => run.cards.as_slice(),
        }
    }

    /// Words for each line of the chart that is known of its panel, and what the line asks for; nothing if none is known. `text` is that of
    /// the run.
    pub(crate) fn asked<'a>(
        &self,
        alloc: Global,
        text: &[u8],
    ) -> Result<Vec<(String, Setup)>, Fault<'a>>
        requires { IsServed (known_of text.now self.now) }
        ensures asked { IfOk result (λ all. AreAsked (known_of text.now self.now) all.items) }
        ensures memory { IfErr result (λ told. told ≡ Memory) }
    {
        match self {
            TextRun::Wired { read, .. } => asked_on_panel(alloc, read),
            TextRun::Planned { run } => asked_by_lines(alloc, &run.compiled, text),
        }
    }

    /// The totals of the chart that is known of its panel, which has this text if it is a planning chart; none if none is known.
    pub(crate) fn totals<'a>(&self, alloc: Global) -> Result<Vec<TitledAccount>, Fault<'a>>
        ensures totals { (text : List ℕ) → IfOk result (λ totals. totals.items ≡ totals_known (known_of text self.now)) }
        ensures accounts { IfOk result (λ totals. AreAccounts totals.items) }
        ensures memory { IfErr result (λ told. told ≡ Memory) }
    {
        match self {
            TextRun::Wired { read, .. } => totals_on_panel(alloc, read),
            TextRun::Planned { run } => totals_by_chart(alloc, &run.compiled),
        }
    }
}
