//! What a ledger or an origin tells by a hole of a card is what the machine does: the hole sends an impulse to the entry, and a difference calls a
//! level.

mod law;

pub use law::{
    cycles_impulse_entries, holes_impulse_entries, holes_tell_compared, lines_tell_differences,
    reasons_hold,
};
