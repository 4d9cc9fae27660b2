//! The tables of the panel: which unit owns an exit, and which unit senses an entry.

ghost use Rattle.std.specs.Prelude.{◌≡◌};
ghost use Rattle.net.specs.Panel.{owner_of, reader_of, unit_of};

use hubs::{Group, Hub};

// The unit that owns an exit: it emits there, or the contact that leads to it is its own. 0 for an entry.
pub(crate) fn owner_of(hub: Hub) -> u16
    ensures { result ≡ owner_of hub }
{
    match hub {
        Hub::FR(_) | Hub::SR(_) => 1,
        Hub::CX(_) => 2,
        Hub::GX(group, _) | Hub::CO(group) | Hub::BAN(group, _) | Hub::BAT(group, _) => unit_of(
            group,
        ),
        Hub::SX(unit, _) => 34 + u16::from(unit),
        Hub::PIN(_, _) | Hub::PIT(_, _) => 39,
        Hub::IX(_, _) => 40,
        Hub::CSD(_) | Hub::CSZ(_) => 41,
        Hub::EM(_, _) => 42,
        Hub::CC | Hub::PX(_, _) | Hub::HX(_) => 45,
        _ => 0,
    }
}

// The unit that senses an entry. 0 for an exit, and for the common hubs of contacts, which no unit senses.
pub(crate) fn reader_of(hub: Hub) -> u16
    ensures { result ≡ reader_of hub }
{
    match hub {
        Hub::CA(_) | Hub::CB(_) => 2,
        Hub::GE(group, _)
        | Hub::PL(group)
        | Hub::MI(group)
        | Hub::RO(group)
        | Hub::BT(group)
        | Hub::CI(group) => unit_of(group),
        Hub::SE(unit, _) | Hub::SI(unit) | Hub::SO(unit) => 34 + u16::from(unit),
        Hub::PIX(_) => 39,
        Hub::W(_) => 43,
        Hub::SP(_) | Hub::SK(_) | Hub::RS => 44,
        Hub::ST(_) => 45,
        _ => 0,
    }
}

// The unit of a counter group: 3 to 34, by width and number; 0 where there is no such group.
fn unit_of(group: Group) -> u16
    ensures { result ≡ unit_of group }
{
    let before = match group.width {
        3 => 2,
        4 => 10,
        6 => 18,
        8 => 26,
        _ => return 0,
    };
    if 1 <= group.number && group.number <= 8 {
        before + u16::from(group.number)
    } else {
        0
    }
}
