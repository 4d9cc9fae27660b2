//! What is told of a text of orders.

ghost use Rattle.std.specs.Prelude.{◌≡◌, ◌≢◌, ◌⊎◌, IfErr, IfOk};
ghost use Rattle.card_code.specs.Lines.{lines_of};
ghost use Rattle.cli_commands.specs.CommandsWords.UnitOrders.OrdersText.{SayOrders};
ghost use Rattle.cli_commands.specs.CommandsWords.ServedReplays.Refusals.{RefusesOrders, orders_told};

use crate::commands::orders::{OrdersFault, read_orders};
use fault_lines::faults::Fault;
use machine_served::served::{NotAnOrder, Service};
use std::alloc::Global;

// What is told of the fault of orders. There is no memory for so many orders that the line has no number of 32 bits.
fn told_of<'a>(fault: OrdersFault) -> Fault<'a>
    ensures { (result ≡ Fault.Memory) ⊎ (result ≡ orders_told fault) }
{
    let number = NotAnOrder.number();
    match fault {
        OrdersFault::NotAnOrder { line } => match u32::try_from(line) {
            Ok(line) => Fault::Line { number, line },
            Err(_) => Fault::Memory,
        },
        OrdersFault::NoOrders => Fault::Whole { number },
        OrdersFault::Memory => Fault::Memory,
    }
}

// The service of a text.
pub(crate) fn service_of<'a>(alloc: Global, orders: &[u8]) -> Result<Service, Fault<'a>>
    ensures said { IfOk result (λ service. SayOrders (lines_of orders.now) service) }
    ensures refused { IfErr result (λ told. told ≢ Fault.Memory → RefusesOrders orders.now told) }
{
    match read_orders(alloc, orders) {
        Ok(service) => Ok(service),
        Err(fault) => Err(told_of(fault)),
    }
}
