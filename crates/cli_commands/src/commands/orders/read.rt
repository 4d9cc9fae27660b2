//! Orders, read from a text.

ghost use Rattle.std.specs.Prelude.{◌≡◌, ◌≢◌, ℕ, List, IfErr, IfNone, IfOk, IfSome};
ghost use Rattle.card_code.specs.Lines.{lines_of};
ghost use Rattle.cli_commands.specs.CommandsWords.UnitOrders.OrdersText.{HasOrdersFault, NameUnits, SayOrders, SaysOrder};
ghost use Rattle.chart_lines.specs.TokensWords.Texts.{texts};

use crate::commands::orders::fault::OrdersFault;
use card_code::next_line;
use chart_lines::tokens::{read_number_to, split_line};
use machine_served::served::{Service, UNITS, is_order};
use std::alloc::{AllocError, Global};

/// Reads orders: each line of the text has the numbers of the 45 units, each once, divided by spaces.
///
/// # Errors
///
/// `NotAnOrder` with the lowest line that is no order, an empty one among them; `NoOrders` where there is no line. `Memory` only where
/// memory was refused. What was read so far is freed then.
pub fn read_orders(alloc: Global, text: &[u8]) -> Result<Service, OrdersFault>
    ensures read { IfOk result (λ service. SayOrders (lines_of text.now) service) }
    ensures fault { IfErr result (λ fault. fault ≢ OrdersFault.Memory → HasOrdersFault (lines_of text.now) fault) }
{
    let mut orders = Vec::new(alloc);
    let mut rest = text;
    while let Some((line, after)) = next_line(rest) {
        match read_order(alloc, line)? {
            Some(order) => orders.push(order)?,
            None => {
                return Err(OrdersFault::NotAnOrder {
                    line: orders.len() + 1,
                });
            }
        }
        rest = after;
    }
    match Service::new(orders) {
        Ok(service) => Ok(service),
        Err(_) => Err(OrdersFault::NoOrders),
    }
}

// The order of a line, if it says one.
fn read_order(alloc: Global, line: &[u8]) -> Result<Option<Vec<u8>>, AllocError>
    ensures order { IfOk result (λ order. IfSome order (λ v. SaysOrder line.now v.items)) }
    ensures no_order { IfOk result (λ order. IfNone order ((other : List ℕ) → ¬ SaysOrder line.now other)) }
{
    let Some(tokens) = split_line(alloc, line)? else {
        return Ok(None);
    };
    let Some(units) = read_units(alloc, tokens.as_slice())? else {
        return Ok(None);
    };
    if is_order(units.as_slice()) {
        Ok(Some(units))
    } else {
        Ok(None)
    }
}

// The units that tokens name, if each names one.
fn read_units(alloc: Global, tokens: &[&[u8]]) -> Result<Option<Vec<u8>>, AllocError>
    ensures units { IfOk result (λ units. IfSome units (λ v. NameUnits (texts tokens.now) v.items)) }
    ensures no_units { IfOk result (λ units. IfNone units ((others : List ℕ) → ¬ NameUnits (texts tokens.now) others)) }
{
    let mut units = Vec::new(alloc);
    for token in tokens {
        match read_number_to(UNITS, token) {
            Some(unit) => units.push(unit)?,
            None => return Ok(None),
        }
    }
    Ok(Some(units))
}
