//! Orders in which the units of the machine are served.

ghost use Rattle.std.specs.Prelude.{◌≡◌, ◌↔◌, ◌≤◌, ◌<◌, ℕ, true, IfOk, IsOk};
ghost use Rattle.std.specs.Prelude.{All};
ghost use Rattle.machine_served.specs.ServedWords.Orders.{AreOrders, IsOrder, NamesAll, lists_of, unit_count};

use std::marker::Model;
use thiserror::Error;

/// How many units the machine has. They are numbered from 1.
pub const UNITS: u8 = 45;

/// Why lists are no service: there is none, or one of them doesn't name each of the 45 units once.
#[derive(Clone, Copy, Debug, PartialEq, Eq, Error)]
#[error("not an order of the 45 units")]
pub struct NotAnOrder;

impl NotAnOrder {
    /// Its number, 84.
    pub fn number(self) -> u8
        ensures { result ≡ 84 }
    {
        84
    }
}

/// Orders in which the units of the machine are served, round by round: at least one, each with the numbers of all 45 units.
///
/// Contracts see it as the list of its orders.
#[derive(Debug, Drop)]
pub struct Service {
    orders: Vec<Vec<u8>>,
}

impl Model for Service {
    ghost use Rattle.std.specs.Prelude.{List, ℕ};
    ghost use Rattle.machine_served.specs.ServedWords.Orders.{AreOrders, lists_of};

    ghost Value = { List (List ℕ) };

    ghost view = { λ service. lists_of service.orders.items };

    ghost invariant = { λ service. AreOrders (lists_of service.orders.items) };
}

impl Service {
    ghost use Rattle.std.specs.Prelude.{◌≡◌, ◌↔◌, ◌%◌, [], IfOk, IsOk, length, slice_index_or};
    ghost use Rattle.machine_served.specs.ServedWords.Orders.{AreOrders, IsOrder, lists_of};

    /// The service by these orders. It is refused where there is none, and where one of them doesn't have 45 numbers with each
    /// unit, 1 to 45, among them; the lists are then gone.
    pub fn new(orders: Vec<Vec<u8>>) -> Result<Service, NotAnOrder>
        ensures accepted { IsOk result ↔ AreOrders (lists_of orders.items) }
        ensures orders { IfOk result (λ service. service ≡ lists_of orders.items) }
    {
        if orders.is_empty() || !are_orders(orders.as_slice()) {
            return Err(NotAnOrder);
        }
        Ok(Service { orders })
    }

    /// The order of a round, counted from 0: the orders come in turn, and after the last the first again.
    pub fn order(&self, round: u64) -> &[u8]
        ensures order { result.now ≡ slice_index_or self.now (round % length self.now) [] }
        ensures whole { IsOrder result.now }
    {
        let place = round % self.orders.len() as u64;
        self.orders[place as usize].as_slice()
    }
}

// Whether each list is an order.
fn are_orders(orders: &[Vec<u8>]) -> bool
    ensures { (result ≡ true) ↔ All IsOrder (lists_of orders.now) }
{
    for order in orders {
        if !is_order(order.as_slice()) {
            return false;
        }
    }
    true
}

/// Whether a list is an order: whether it has 45 numbers, and each unit among them.
pub fn is_order(order: &[u8]) -> bool
    ensures { (result ≡ true) ↔ IsOrder order.now }
{
    order.len() == UNITS as usize && names_all(order)
}

// Whether each unit is in a list.
fn names_all(order: &[u8]) -> bool
    ensures { (result ≡ true) ↔ NamesAll unit_count order.now }
{
    for unit in 1..=UNITS {
        if !order.contains(&unit) {
            return false;
        }
    }
    true
}
