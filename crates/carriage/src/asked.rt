//! What the carriage is asked for at the control point of a cycle.

ghost use Rattle.std.specs.Prelude.{◌≡◌, ◌≤◌};
ghost use Rattle.hubs.specs.declared.hub.Hub.TheVariants.{SP};
ghost use Rattle.net.specs.HubSets.{is_in_row};
ghost use Rattle.carriage.specs.Asked.{asked_by, lines_asked, lowest_from};

use net::has_bit;

/// What is asked for in a cycle.
#[derive(Clone, Copy, Debug, PartialEq, Eq)]
pub struct Asked {
    /// The lines that a printing cycle goes down, 1 to 3.
    pub lines: u8,
    /// The channel of a skip, 1 to 12.
    pub channel: Option<u8>,
    /// Whether the restore latch is to be set.
    pub restore: bool,
}

impl Asked {
    ghost use Rattle.std.specs.Prelude.{◌≡◌, Bool};
    ghost use Rattle.hubs.specs.declared.hub.Hub.{Hub};
    ghost use Rattle.net.specs.Orders.{IsRowOf};
    ghost use Rattle.carriage.specs.Asked.{nothing_asked, asked_by};

    /// Single spacing, no skip and no restore.
    pub fn nothing() -> Self
        ensures { result ≡ nothing_asked }
    {
        Asked {
            lines: 1,
            channel: None,
            restore: false,
        }
    }

    /// What the hubs of the carriage ask for, as the row of them in the picture of the control point: SP 2 and 3, SK 1 to 12, RS.
    pub fn by(row: u128) -> Self
        ensures { (picture : Hub → Bool) → IsRowOf (SP 2) picture row → result ≡ asked_by picture }
    {
        if row & 0x7fff == 0 {
            Asked::nothing()
        } else {
            asked_in(row)
        }
    }
}

// What the row of the carriage's hubs asks for.
fn asked_in(hubs: u128) -> Asked
    ensures { result ≡ asked_by (is_in_row (SP 2) hubs) }
{
    Asked {
        lines: lines_in(hubs),
        channel: channel_in(hubs, 12),
        restore: has_bit(hubs, 14),
    }
}

// Triple spacing rules over double spacing.
fn lines_in(hubs: u128) -> u8
    ensures { result ≡ lines_asked (is_in_row (SP 2) hubs) }
{
    if has_bit(hubs, 1) {
        3
    } else if has_bit(hubs, 0) {
        2
    } else {
        1
    }
}

// The lowest of the first channels, up to so many, whose skip hub is impulsed.
fn channel_in(hubs: u128, channels: u8) -> Option<u8>
    requires { channels ≤ 12 }
    ensures { result ≡ lowest_from 1 channels (is_in_row (SP 2) hubs) }
{
    for channel in 1..channels + 1 {
        if has_bit(hubs, channel as usize + 1) {
            return Some(channel);
        }
    }
    None
}
