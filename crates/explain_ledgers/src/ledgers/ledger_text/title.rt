//! What a chart knows of a ledger.

use chart_lines::charts::Name;

/// The amount of a chart whose total a ledger tells.
#[derive(Clone, Copy)]
pub struct Title {
    /// Its name.
    pub name: Name,
    /// How many of its digits are decimals.
    pub decimals: u16,
}
