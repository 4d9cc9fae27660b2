//! Laws of panels that are wired for charts. Each function does nothing: its contract is the law.

ghost use Rattle.proof_reports.specs.WiredPanels.CarryLaws.{ChartWiresCanJoin};
ghost use Rattle.proof_reports.specs.WiredPanels.PanelLaws.{BreaksCallLevels, PilotsTellTheNextCard, UnitsHoldTheCard};

/// After the run-in and each card cycle the pilots tell the signs of the card that prints next, and other cycles leave them.
pub fn pilots_tell_the_next_card()
    ensures { PilotsTellTheNextCard }
{}

/// After a card cycle the storage units hold the texts of its card, and other cycles leave them.
pub fn units_hold_the_card()
    ensures { UnitsHoldTheCard }
{}

/// After a card cycle the levels that are called for are those of the break between its card and the next.
pub fn breaks_call_levels()
    ensures { BreaksCallLevels }
{}

/// Each wire of a chart can join a setup whose wires are all wires of the chart: its carry wires agree with one another. So where
/// the wires of a chart alone are added one by one to a setup that has none, in any order, want of memory is the only refusal.
pub fn chart_wires_can_join()
    ensures { ChartWiresCanJoin }
{}
