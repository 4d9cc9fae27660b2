//! The wheels of an amount: where its digits stand, and its mark.

ghost use Rattle.std.specs.Prelude.{◌≡◌, ◌≤◌};
ghost use Rattle.wiring_table.specs.Figures as figures;

/// The wheel of a digit of an amount from a wheel on, by its position from the units.
pub fn digit_wheel(wheel: u16, digits: u32, decimals: u16, position: u32) -> u32
    requires { digits ≤ 65536 }
    ensures value { result ≡ figures.digit_wheel wheel digits decimals position }
    ensures within { 1 ≤ wheel → figures.mark_wheel wheel digits decimals ≤ 121 → 1 ≤ position → position ≤ digits
        → (1 ≤ result) × (result ≤ 120) }
{
    let end = u32::from(wheel) + digits;
    if u32::from(decimals) < position {
        end.saturating_sub(position)
    } else {
        (end + 1).saturating_sub(position)
    }
}

/// The wheel after the units of an amount from a wheel on, where its mark begins.
pub fn mark_wheel(wheel: u16, digits: u32, decimals: u16) -> u32
    requires { digits ≤ 65536 }
    ensures { result ≡ figures.mark_wheel wheel digits decimals }
{
    u32::from(wheel) + digits + u32::from(decimals > 0)
}
