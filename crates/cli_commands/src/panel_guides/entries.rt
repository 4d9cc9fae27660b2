//! The guide to faults has what is told of wheels that aren't explained.

ghost use Rattle.cli_commands.specs.PanelGuides.Entries.{UnexplainedWheelsHaveEntries};

/// The line that tells that a line or a wheel isn't there, 92 or 93, names a fault with an entry in the guide. The function does nothing: its
/// contract is the law.
pub fn unexplained_wheels_have_entries()
    ensures { UnexplainedWheelsHaveEntries }
{}
