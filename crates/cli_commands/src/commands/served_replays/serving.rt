//! A replay by orders, over any reader and writers.

ghost use Rattle.std.specs.Prelude.{OnOk, ◌≡◌, ◌≢◌, ◌≤◌, ◌⊎◌, ℕ, IfErr, IfOk, List};
ghost use Rattle.std.specs.Io.KnownBytes.{Appends};
ghost use Rattle.fault_lines.specs.FaultsWords.Lines.{IsTold};
ghost use Rattle.fault_lines.specs.FaultsWords.Status.{status_of};
ghost use Rattle.fault_lines.specs.ProgramIo.Fronts.{WritesFront};
ghost use Rattle.fault_lines.specs.ProgramIo.Stops.{Stops};
ghost use Rattle.cli_commands.specs.CommandsWords.ServedReplays.Answers.{HasOrders};
ghost use Rattle.cli_commands.specs.CommandsWords.ServedReplays.Counted.{counts_line};
ghost use Rattle.cli_commands.specs.CommandsWords.ServedReplays.Refusals.{RefusesByOrders};
ghost use Rattle.cli_commands.specs.CommandsWords.ServedReplays.OrderedEnds.{IsRefusedByOrders, PrintsByOrders, PrintsServed};

use crate::commands::served_replays::answers::{ServedPages, replayed_by_orders};
use crate::commands::served_replays::counted::tell_counts;
use crate::commands::served_replays::fault::service_of;
use fault_lines::faults::{Ending, Fault, tell};
use fault_lines::program_io::{put, read_whole};
use machine_served::served_runs::Counts;
use std::alloc::Global;
use std::io::{Read, Write};
use wire_chart::read_setup;

// Prints the pages of a wiring chart, orders and a deck, and answers what was counted.
fn print_pages<'a, W: Write>(
    alloc: Global,
    wiring: &[u8],
    orders: &[u8],
    deck: &[u8],
    out: &mut W,
) -> Result<Counts, Fault<'a>>
    ensures pages { IfOk result (λ counts. PrintsServed wiring.now orders.now deck.now counts (W.contents out.old) (W.contents out.new)) }
    ensures refused { IfErr result (λ told. status_of told ≡ 3 → RefusesByOrders wiring.now orders.now deck.now told × (out.new ≡ out.old)) }
    ensures stopped { IfErr result (λ told. (unreadable : Fault) → Stops told unreadable (out.new ≡ out.old)) }
    ensures front { (out.new ≡ out.old) ⊎ ((counts : Counts)
        × WritesFront (PrintsServed wiring.now orders.now deck.now counts) (W.contents out.old) (W.contents out.new)) }
{
    let ServedPages { pages, counts } = replayed_by_orders(alloc, wiring, orders, deck)?;
    put(out, pages.as_slice())?;
    Ok(counts)
}

// Whether there are a panel and orders for it: else the fault of the wiring chart, or that of the orders.
fn check_orders<'a>(alloc: Global, wiring: &[u8], orders: &[u8]) -> Result<(), Fault<'a>>
    ensures good { OnOk result (HasOrders wiring.now orders.now) }
    ensures refused { IfErr result (λ told. told ≢ Fault.Memory → (deck : List ℕ) → RefusesByOrders wiring.now orders.now deck told) }
{
    read_setup(alloc, wiring)?;
    service_of(alloc, orders)?;
    Ok(())
}

/// Prints the pages of a wiring chart, a text of orders and a deck, and answers what was counted in the run that is served by them.
/// `path` names the deck in what is told of one that can't be read.
///
/// # Errors
///
/// The fault of the wiring chart, else of the orders, else that the deck can't be read, else the fault of its text, and nothing is
/// printed; `Memory` where a growth was refused and `Write` where the output can't be written, and then the front of the pages may have
/// been printed.
pub fn print_replay_by_orders<'a, R: Read + Drop, W: Write>(
    alloc: Global,
    wiring: &[u8],
    orders: &[u8],
    path: &'a str,
    deck: R,
    out: &mut W,
) -> Result<Counts, Fault<'a>>
    ensures pages { IfOk result (λ counts.
        PrintsByOrders wiring.now orders.now (R.remaining deck) counts (W.contents out.old) (W.contents out.new)) }
    ensures refused { IfErr result (λ told. status_of told ≡ 3
        → IsRefusedByOrders wiring.now orders.now (R.remaining deck) told × (out.new ≡ out.old)) }
    ensures unread { IfErr result (λ told. told ≡ Fault.File path.entry → HasOrders wiring.now orders.now) }
    ensures stopped { IfErr result (λ told. Stops told (Fault.File path.entry) (out.new ≡ out.old)) }
    ensures front { (out.new ≡ out.old) ⊎ ((counts : Counts)
        × WritesFront (PrintsByOrders wiring.now orders.now (R.remaining deck) counts) (W.contents out.old) (W.contents out.new)) }
{
    match read_whole(alloc, deck, path) {
        Ok(bytes) => print_pages(alloc, wiring, orders, bytes.as_slice(), out),
        Err(unread) => {
            check_orders(alloc, wiring, orders)?;
            Err(unread)
        }
    }
}

/// Replays a deck through a wiring chart by orders: the pages are printed on `out`, and behind them what was counted is told on one line
/// of `faults`, `rounds R seen S`. Why there are no pages is told there on one line too.
///
/// `path` names the deck in what is told of one that can't be read, after a fault of the wiring chart or of the orders. The statuses are
/// 0 done, 3 refused input, 4 file fault, 5 memory. Nothing is printed by status 3, nor where the deck can't be read. Where the output
/// can't be written or memory runs out, the front of the pages may have been; where what was counted can't be told, all of them are.
pub fn replay_by_orders_to_end<R: Read + Drop, W: Write, V: Write>(
    alloc: Global,
    wiring: &[u8],
    orders: &[u8],
    path: &str,
    deck: R,
    out: &mut W,
    faults: &mut V,
) -> Ending
    ensures done { result.status ≡ 0 → (counts : Counts)
        × PrintsByOrders wiring.now orders.now (R.remaining deck) counts (W.contents out.old) (W.contents out.new)
        × Appends (V.contents faults.old) (V.contents faults.new) (counts_line counts) }
    ensures refused { result.status ≡ 3 → (told : Fault)
        × IsRefusedByOrders wiring.now orders.now (R.remaining deck) told × (out.new ≡ out.old)
        × IsTold told result.is_told (V.contents faults.old) (V.contents faults.new) }
    ensures device { result.status ≡ 4
        → ((out.new ≡ out.old) × HasOrders wiring.now orders.now
        × IsTold (Fault.File path.entry) result.is_told (V.contents faults.old) (V.contents faults.new))
        ⊎ IsTold Fault.Write result.is_told (V.contents faults.old) (V.contents faults.new) }
    ensures memory { result.status ≡ 5 → IsTold Fault.Memory result.is_told (V.contents faults.old) (V.contents faults.new) }
    ensures front { (out.new ≡ out.old) ⊎ ((counts : Counts)
        × WritesFront (PrintsByOrders wiring.now orders.now (R.remaining deck) counts) (W.contents out.old) (W.contents out.new)) }
    ensures statuses { (result.status ≡ 0) ⊎ (3 ≤ result.status × result.status ≤ 5) }
{
    match print_replay_by_orders(alloc, wiring, orders, path, deck, out) {
        Ok(counts) => tell_counts(&counts, faults),
        Err(fault) => tell(&fault, faults),
    }
}

/// Does a replay by orders as [`replay_by_orders_to_end`] does, and answers the status alone.
pub fn replay_by_orders<R: Read + Drop, W: Write, V: Write>(
    alloc: Global,
    wiring: &[u8],
    orders: &[u8],
    path: &str,
    deck: R,
    out: &mut W,
    faults: &mut V,
) -> u8
    ensures done { result ≡ 0 → (counts : Counts)
        × PrintsByOrders wiring.now orders.now (R.remaining deck) counts (W.contents out.old) (W.contents out.new)
        × Appends (V.contents faults.old) (V.contents faults.new) (counts_line counts) }
    ensures refused { result ≡ 3 → (told : Fault)
        × IsRefusedByOrders wiring.now orders.now (R.remaining deck) told × (out.new ≡ out.old) }
    ensures front { (out.new ≡ out.old) ⊎ ((counts : Counts)
        × WritesFront (PrintsByOrders wiring.now orders.now (R.remaining deck) counts) (W.contents out.old) (W.contents out.new)) }
    ensures statuses { (result ≡ 0) ⊎ (3 ≤ result × result ≤ 5) }
{
    replay_by_orders_to_end(alloc, wiring, orders, path, deck, out, faults).status
}
