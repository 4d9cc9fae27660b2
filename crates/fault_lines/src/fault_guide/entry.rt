//! The entry of a fault by its number.

ghost use Rattle.std.specs.Prelude.{◌≡◌, ◌↔◌, true, IfSome, IsSome};
ghost use Rattle.fault_lines.specs.FaultGuide.Numbered.{ToldFaultsHaveEntries, is_numbered};

use crate::fault_guide::table::{
    FaultEntry, capacity_entry, card_entry, chart_text_entry, deck_text_entry, explanation_entry,
    match_entry, order_entry, rule_entry, setup_entry, sheet_entry, wiring_text_entry,
};

/// The entry of the fault with a number; none where the program tells no fault with the number.
pub fn fault_entry(number: u8) -> Option<FaultEntry>
    ensures there { IsSome result ↔ (is_numbered number ≡ true) }
    ensures its_own { IfSome result (λ entry. entry.number ≡ number) }
{
    match number {
        1..=4 => Some(deck_text_entry(number)),
        11..=14 => Some(chart_text_entry(number)),
        21..=38 => Some(rule_entry(number)),
        41..=43 => Some(card_entry(number)),
        51..=54 => Some(setup_entry(number)),
        61..=67 => Some(capacity_entry(number)),
        71..=76 => Some(wiring_text_entry(number)),
        84 => Some(order_entry()),
        92..=93 => Some(explanation_entry(number)),
        94..=95 => Some(match_entry(number)),
        96 => Some(sheet_entry()),
        _ => None,
    }
}

/// Each number on the line of a fault of a chart, a deck or a wiring chart is that of a fault with an entry, also that of a cause. The
/// function does nothing: its contract is the law. Of 84 and 92 to 95, which the commands tell that have them, it says nothing.
pub fn told_faults_have_entries()
    ensures { ToldFaultsHaveEntries }
{}
