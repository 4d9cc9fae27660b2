//! Allocation.

ghost use Rattle.std.specs.Prelude.{◌≢◌, IfOk, IfErr, OnOk};
ghost use Rattle.allocate.specs.Exceeded.{FitsMachine, HasCapacityFault};
ghost use Rattle.allocate.specs.Allocated.{IsPlanOf};
ghost use Rattle.chart_plans.specs.PlansWords.Plans.{IsFor};
ghost use Rattle.chart_plans.specs.WantedWords.Wanted.{wanted_of};

use crate::exceeded::fault_on;
use crate::fault::CapacityFault;
use crate::groups::assign;
use capacity::Profile;
use chart_plans::plans::Plan;
use chart_plans::wanted::Wanted;
use chart_rules::Chart;
use std::alloc::Global;

/// The plan of a chart on a machine.
///
/// The totals are taken by need, the greatest first, then by level, then by line. One that needs more than 8 positions has
/// the two counter groups of the lowest numbers that are free of the groups of 8, the lower number for its positions 1 to 8;
/// any other has the group of the lowest number that is free of the smallest width that is enough and still has a free one. The other parts of the machine
/// serve what the chart asks for in its order, those of each kind by number: pilots the signed amounts of DETAIL and TOTAL lines by their FIELD lines,
/// comparing positions the columns of the CONTROL lines' fields, storage units the texts of total lines, splits the DETAIL
/// amounts with their sign column inside, indicate positions the columns of the INDICATE items of their level.
///
/// # Errors
///
/// The first capacity that the chart exceeds: 61 `Counters` by width, 8 first, then 62 to 66, then 67 `Indicate` by level.
/// `Memory` where a growth was refused.
pub fn allocate(alloc: Global, chart: &Chart, profile: &Profile) -> Result<Plan, CapacityFault>
    ensures plan { IfOk result (IsPlanOf (wanted_of chart.now.lines) profile.now) }
    ensures is_for { IfOk result (IsFor chart.now.lines) }
    ensures fits { OnOk result (FitsMachine (wanted_of chart.now.lines) profile.now) }
    ensures refused { IfErr result (λ fault. fault ≢ CapacityFault.Memory → HasCapacityFault (wanted_of chart.now.lines) profile.now fault) }
{
    let wanted = Wanted::of(alloc, chart)?;
    if let Some(fault) = fault_on(&wanted, profile) {
        return Err(fault);
    }
    // Whatever fits a profile fits the standard machine, since no profile has more.
    let pilots = profile.pilots();
    prove!(pilots <= 16);
    let counters = assign(alloc, wanted.totals(), profile)?;
    Ok(Plan::in_order(alloc, counters, wanted.into_parts())?)
}
