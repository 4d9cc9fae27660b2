//! Lists that are no orders of the units.

use machine_served::served::{NotAnOrder, Service};
use std::alloc::Global;
use std::test::Fail;

// The units in the order of their numbers.
fn in_order(alloc: Global) -> Result<Vec<u8>, Fail> {
    let mut order = Vec::new(alloc);
    for unit in 1..=45 {
        order.push(unit)?;
    }
    Ok(order)
}

#[test]
fn each_list_names_each_unit_once(rt: HostRuntime) -> Result<(), Fail> {
    let alloc = rt.alloc();
    assert_eq!(rt; Service::new(Vec::new(alloc)).err(), Some(NotAnOrder));
    let mut short = in_order(alloc)?;
    assert_eq!(rt; short.pop(), Some(45));
    let mut twice = in_order(alloc)?;
    assert_eq!(rt; twice.as_slice().get(7), Some(&8));
    twice.as_mut_slice()[7] = 7;
    for wrong in [short, twice] {
        let mut lists = Vec::new(alloc);
        lists.push(in_order(alloc)?)?;
        lists.push(wrong)?;
        assert_eq!(rt; Service::new(lists).err(), Some(NotAnOrder));
    }
    assert_eq!(rt; NotAnOrder.number(), 84);
    let mut right = Vec::new(alloc);
    right.push(in_order(alloc)?)?;
    let service = Service::new(right)?;
    assert!(rt; service.order(3) == in_order(alloc)?.as_slice());
    Ok(())
}
