//! A plan with another pilot than the first: it serves the chart, and is not the chart's own.

use allocate::allocate;
use capacity::Profile;
use chart_plans::plans::{PartKind, PartNumbers, Plan};
use chart_plans::wanted::Wanted;
use chart_rules::{Chart, check};
use chart_text::read_chart;
use std::alloc::Global;
use std::process::Abort;
use std::test::Fail;

/// A signed total of two digits, whose one pilot is pilot 1.
const BALANCE: &[u8] =
    b"CHART407 1\nFIELD AMT AMOUNT 1 2 0 X 3\nPRINT GROUP\nTOTAL 4 1 AMT 2 MARK CR\nFORM 12 1 9\nEND\n";

/// The plan of the chart, but with the last pilot in place of the first.
fn with_last_pilot(alloc: Global, chart: &Chart) -> Result<Plan, Fail> {
    let own = allocate(alloc, chart, &Profile::standard())?;
    // What is known of the parts of every plan is told with them: that saves a check of them against the machine.
    let _pilots = own.pilots();
    let counters = own.counters().to_vec(alloc)?;
    let parts = Wanted::of(alloc, chart)?.into_parts();
    let mut last = Vec::new(alloc);
    last.push(16)?;
    let numbers = PartNumbers::in_order(alloc, &parts)?.with(PartKind::Pilot, last);
    Ok(Plan::of(counters, parts, numbers))
}

#[test]
fn last_pilot_serves(rt: HostRuntime) -> Result<(), Fail> {
    let alloc = rt.alloc();
    let chart = check(alloc, read_chart(alloc, BALANCE)?)?;
    let own = allocate(alloc, &chart, &Profile::standard())?;
    assert!(rt; own.serves(&chart) && own.is_for(&chart));
    let other = with_last_pilot(alloc, &chart)?;
    assert!(rt; other.serves(&chart) && !other.is_for(&chart));
    Ok(())
}
