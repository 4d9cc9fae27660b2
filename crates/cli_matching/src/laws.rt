//! Laws over definitions alone.

ghost use Rattle.cli_matching.specs.Laws.{UnmatchedPanelsHaveEntries};

/// The line that tells why a panel doesn't match a chart, 94 or 95, names a fault with an entry in the guide. The function does nothing: its
/// contract is the law.
pub fn unmatched_panels_have_entries()
    ensures { UnmatchedPanelsHaveEntries }
{}
