//! Which units wait for which, on a panel that totals one field.

use crate::given::setup_of;
use hubs::setups::Tape;
use hubs::{Group, Hub};
use machine_served::waits::{Waits, all_waits};
use net::Net;
use std::test::Fail;

const GROUP: Group = Group {
    width: 4,
    number: 1,
};

/// Three columns into a counter group, whose total is printed and cleared at the final level.
#[rattlefmt::skip]
static WIRES: [(Hub, Hub); 9] = [
    (Hub::SR(1), Hub::GE(GROUP, 3)), (Hub::SR(2), Hub::GE(GROUP, 2)), (Hub::SR(3), Hub::GE(GROUP, 1)),
    (Hub::GX(GROUP, 1), Hub::W(4)), (Hub::GX(GROUP, 2), Hub::W(3)), (Hub::GX(GROUP, 3), Hub::W(2)), (Hub::GX(GROUP, 4), Hub::W(1)),
    (Hub::CC, Hub::PL(GROUP)), (Hub::PX(4, 3), Hub::RO(GROUP)),
];

// The group, unit 11, waits for the stations, unit 1, and the program unit, unit 45; the wheels, unit 43, wait for the group.
#[test]
fn units_wait_for_what_reaches_them(rt: HostRuntime) -> Result<(), Fail> {
    let setup = setup_of(rt.alloc(), Tape::new(12, 1, 9, &[])?, &WIRES)?;
    let net = Net::of(rt.alloc(), &setup)?;
    let all = all_waits(&net);
    for place in 0..45 {
        let awaited = match place + 1 {
            11 => 1 << 0 | 1 << 44,
            43 => 1 << 10,
            _ => 0,
        };
        assert_eq!(rt; all[place], awaited);
    }
    assert_eq!(rt; net.waits(11), 1 << 0 | 1 << 44);
    assert_eq!(rt; net.waits(43), 1 << 10);
    assert_eq!(rt; net.waits(45), 0);
    Ok(())
}
