//! Laws of the cycles of panels that are wired for charts. Each function does nothing: its contract is the law.

ghost use Rattle.proof_reports.specs.WiredPanels.CycleAsks.CycleLaws.{CarriageDoesWhatIsAsked, GroupsAreAskedForTotals};
ghost use Rattle.proof_reports.specs.WiredPanels.CycleAsks.WheelLaws.{WheelsReceiveCards, WheelsReceiveHeadings, WheelsReceiveTotals};

/// In each cycle that prints, each wheel receives at each row what the items of the cycle's line send to it, and nothing else.
pub fn wheels_receive_what_items_send()
    ensures headings { WheelsReceiveHeadings }
    ensures cards { WheelsReceiveCards }
    ensures totals { WheelsReceiveTotals }
{}

/// In each cycle the counter group of a total is asked what the totals of its amount do in a cycle of that kind.
pub fn groups_are_asked_for_totals()
    ensures { GroupsAreAskedForTotals }
{}

/// In the cycle of a kind of body line the carriage does what the chart asks for that kind.
pub fn carriage_does_what_is_asked()
    ensures { CarriageDoesWhatIsAsked }
{}
