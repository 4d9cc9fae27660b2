//! Wires one by one, and sets of rows that are spread along them.

ghost use Rattle.std.specs.Prelude.{◌≡◌, All, length};
ghost use Rattle.machine_sets.specs.SpreadsWords.Links.{IsFollowed, IsInRange, Spreads};

use crate::spreads::sets::PANEL_PLACES;

/// A wire or a contact from one place to another.
#[derive(Clone, Copy)]
pub struct Link {
    /// The place that it leads from: below 1040 for a wire, 1040 to 1935 for a contact.
    pub from: u16,
    /// The place that it leads to: 1040 to 1935 for a wire, below 1040 for a contact.
    pub to: u16,
}

// Spreads sets of rows, one for each place, along the links: the far end of each gains the rows of the near end. No link leads from
// where another one leads to.
pub(crate) fn follow_links(links: &[Link], sets: &mut [u16; PANEL_PLACES])
    requires { All IsInRange links.now }
    ensures spread { Spreads links.now sets.old sets.new }
    ensures long { length sets.new ≡ 1936 }
{
    for link in links {
        follow(*link, sets);
    }
}

// The far end of a link gains the rows of the near end.
fn follow(link: Link, sets: &mut [u16; PANEL_PLACES])
    requires { IsInRange link }
    ensures { IsFollowed link sets.old sets.new }
{
    sets[link.to as usize] |= sets[link.from as usize];
}
