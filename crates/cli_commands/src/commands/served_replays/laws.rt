//! Laws over definitions alone.

ghost use Rattle.cli_commands.specs.CommandsWords.ServedReplays.Laws.{ToldOrdersHaveEntries};

/// The number on the line that tells the fault of a text of orders, 84, is that of a fault with an entry in the guide. The function does
/// nothing: its contract is the law.
pub fn told_orders_have_entries()
    ensures { ToldOrdersHaveEntries }
{}
