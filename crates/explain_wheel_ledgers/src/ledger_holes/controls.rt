//! By which ways the groups of an account were told what to do in a cycle.

ghost use Rattle.std.specs.Prelude.{◌≡◌, ◌<◌, ℕ, List, IfOk};
ghost use Rattle.explain_ledgers.specs.CycleWays.Points.{ArePointsOf};
ghost use Rattle.explain_ledgers.specs.LedgersWords.Accounts.{IsAccount};
ghost use Rattle.explain_wheel_ledgers.specs.LedgerHoles.Controls.{AreAccountLines, AreBothLines, AreControlLines};

use crate::ledger_holes::positions::group_at;
use crate::ledger_holes::way_lines::way_told;
use crate::texts::put_together;
use explain_ledgers::ledgers::Account;
use hubs::setups::Setup;
use hubs::{Group, Hub};
use machine::KeptPoint;
use std::alloc::{AllocError, Global};

// The place of the control point among the points of a cycle.
const CONTROL: usize = 0;

// The lines of the ways to the plus, minus and read-out entries of a group.
fn control_lines(
    alloc: Global,
    setup: &Setup,
    points: &[KeptPoint; 14],
    group: Group,
) -> Result<Vec<u8>, AllocError>
    ensures { (deck : List (List ℕ)) (passed : ℕ) (is : ArePointsOf setup.now deck passed points.now)
        → IfOk result (λ lines. AreControlLines is.has group lines.items) }
{
    let plus = way_told(alloc, setup, points, CONTROL, Hub::PL(group), b"    plus:")?;
    let minus = way_told(alloc, setup, points, CONTROL, Hub::MI(group), b"    minus:")?;
    let read_out = way_told(
        alloc,
        setup,
        points,
        CONTROL,
        Hub::RO(group),
        b"    read out:",
    )?;
    let signs = put_together(alloc, plus.as_slice(), minus.as_slice())?;
    let lines = put_together(alloc, signs.as_slice(), read_out.as_slice())?;
    Ok(lines)
}

// Those of two groups, one behind the other.
fn both_lines(
    alloc: Global,
    setup: &Setup,
    points: &[KeptPoint; 14],
    one: Group,
    other: Group,
) -> Result<Vec<u8>, AllocError>
    ensures { (deck : List (List ℕ)) (passed : ℕ) (is : ArePointsOf setup.now deck passed points.now)
        → IfOk result (λ lines. AreBothLines is.has one other lines.items) }
{
    let of_one = control_lines(alloc, setup, points, one)?;
    let of_other = control_lines(alloc, setup, points, other)?;
    let lines = put_together(alloc, of_one.as_slice(), of_other.as_slice())?;
    Ok(lines)
}

// Those of the groups of an account, the group with the units first.
pub(crate) fn account_lines(
    alloc: Global,
    setup: &Setup,
    points: &[KeptPoint; 14],
    account: Account,
) -> Result<Vec<u8>, AllocError>
    requires { IsAccount account }
    ensures { (deck : List (List ℕ)) (passed : ℕ) (is : ArePointsOf setup.now deck passed points.now)
        → IfOk result (λ lines. AreAccountLines is.has account lines.items) }
{
    match account {
        Account::One { place } => control_lines(alloc, setup, points, group_at(place)),
        Account::Coupled { upper, lower } => {
            both_lines(alloc, setup, points, group_at(lower), group_at(upper))
        }
    }
}
