//! The faults of what is wanted on a machine.

ghost use Rattle.std.specs.Prelude.{◌≡◌, IfOk, OnOk};
ghost use Rattle.allocate.specs.Exceeded.{in_order};
ghost use Rattle.fault_lists.specs.CapacityFaults.AllOver.{AreAllOver, GainsOver, Tells};
ghost use Rattle.chart_plans.specs.PlansWords.Excess.{IsOver, count_there};

use allocate::CapacityFault;
use capacity::Profile;
use chart_lines::charts::ControlLevel;
use chart_plans::wanted::{Capacity, Wanted};
use std::alloc::{AllocError, Global};

/// The capacities in the order in which they are asked.
static IN_ORDER: [Capacity; 12] = [
    Capacity::Counters(8),
    Capacity::Counters(6),
    Capacity::Counters(4),
    Capacity::Counters(3),
    Capacity::Pilots,
    Capacity::Comparing,
    Capacity::StorageWidth,
    Capacity::StorageUnits,
    Capacity::Splits,
    Capacity::Indicate(ControlLevel::Minor),
    Capacity::Indicate(ControlLevel::Intermediate),
    Capacity::Indicate(ControlLevel::Major),
];

// How many of a capacity there are.
fn count_there(profile: &Profile, capacity: Capacity) -> u32
    ensures { result ≡ count_there capacity profile.now }
{
    match capacity {
        Capacity::Counters(width) => profile.groups_at_least(width),
        Capacity::Pilots => u32::from(profile.pilots()),
        Capacity::Comparing => u32::from(profile.comparing()),
        Capacity::StorageWidth => 0,
        Capacity::StorageUnits => u32::from(profile.storage()),
        Capacity::Splits => u32::from(profile.splits()),
        Capacity::Indicate(_) => u32::from(profile.indicate()),
    }
}

// What is told of a capacity that is exceeded.
fn fault_of(capacity: Capacity, wanted: &Wanted, profile: &Profile) -> CapacityFault
    requires { IsOver capacity wanted.now profile.now }
    ensures { Tells wanted.now profile.now capacity result }
{
    let count = wanted.count(capacity);
    let there = count_there(profile, capacity);
    match capacity {
        Capacity::Counters(width) => CapacityFault::Counters {
            width,
            wanted: count,
            there,
        },
        Capacity::Pilots => CapacityFault::Pilots {
            wanted: count,
            there,
        },
        Capacity::Comparing => CapacityFault::Comparing {
            wanted: count,
            there,
        },
        Capacity::StorageWidth => CapacityFault::StorageWidth {
            line: wanted.wide_text(),
        },
        Capacity::StorageUnits => CapacityFault::StorageUnits {
            wanted: count,
            there,
        },
        Capacity::Splits => CapacityFault::Splits {
            wanted: count,
            there,
        },
        Capacity::Indicate(level) => CapacityFault::Indicate {
            level,
            wanted: count,
            there,
        },
    }
}

// Adds what is told of a capacity, if it is exceeded, behind the faults so far.
fn add_fault(
    capacity: Capacity,
    wanted: &Wanted,
    profile: &Profile,
    list: &mut Vec<CapacityFault>,
) -> Result<(), AllocError>
    ensures { OnOk result (GainsOver wanted.now profile.now capacity list.old.items list.new.items) }
{
    if wanted.count(capacity) > count_there(profile, capacity) as usize {
        list.push(fault_of(capacity, wanted, profile))?;
    }
    Ok(())
}

// The faults of some capacities.
fn faults_among(
    alloc: Global,
    capacities: &[Capacity],
    wanted: &Wanted,
    profile: &Profile,
) -> Result<Vec<CapacityFault>, AllocError>
    ensures { IfOk result (λ list. AreAllOver wanted.now profile.now capacities.now list.items) }
{
    let mut list = Vec::new(alloc);
    for capacity in capacities {
        add_fault(*capacity, wanted, profile, &mut list)?;
    }
    Ok(list)
}

/// All faults of what is wanted on a machine: each capacity that is exceeded, in the order in which they are asked. None of what fits it.
///
/// It allocates, and fails only where memory is refused.
pub fn capacity_faults(
    alloc: Global,
    wanted: &Wanted,
    profile: &Profile,
) -> Result<Vec<CapacityFault>, AllocError>
    ensures { IfOk result (λ list. AreAllOver wanted.now profile.now in_order list.items) }
{
    faults_among(alloc, &IN_ORDER, wanted, profile)
}
