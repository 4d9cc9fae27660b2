//! The capacities of a machine in their order, and the first that a chart exceeds.

ghost use Rattle.std.specs.Prelude.{◌≡◌, IfNone, IfSome, length};
ghost use Rattle.allocate.specs.Exceeded as law;
ghost use Rattle.chart_plans.specs.PlansWords.Excess.{count_there};

use crate::fault::CapacityFault;
use capacity::Profile;
use chart_lines::charts::ControlLevel;
use chart_plans::wanted::{Capacity, Wanted};

/// The capacities in the order in which they are asked.
static IN_ORDER: [Capacity; 12] = [
    Capacity::Counters(8),
    Capacity::Counters(6),
    Capacity::Counters(4),
    Capacity::Counters(3),
    Capacity::Pilots,
    Capacity::Comparing,
    Capacity::StorageWidth,
    Capacity::StorageUnits,
    Capacity::Splits,
    Capacity::Indicate(ControlLevel::Minor),
    Capacity::Indicate(ControlLevel::Intermediate),
    Capacity::Indicate(ControlLevel::Major),
];

/// How many of a capacity there are.
fn count_there(profile: &Profile, capacity: Capacity) -> u32
    ensures { result ≡ count_there capacity profile.now }
{
    match capacity {
        Capacity::Counters(width) => profile.groups_at_least(width),
        Capacity::Pilots => u32::from(profile.pilots()),
        Capacity::Comparing => u32::from(profile.comparing()),
        Capacity::StorageWidth => 0,
        Capacity::StorageUnits => u32::from(profile.storage()),
        Capacity::Splits => u32::from(profile.splits()),
        Capacity::Indicate(_) => u32::from(profile.indicate()),
    }
}

/// The first of some capacities that is exceeded.
fn first_among(capacities: &[Capacity], wanted: &Wanted, profile: &Profile) -> Option<Capacity>
    ensures none { IfNone result (law.NoneIsOver capacities.now (length capacities.now) wanted.now profile.now) }
    ensures some { IfSome result (λ first. law.IsFirstAmong capacities.now first wanted.now profile.now) }
{
    for capacity in capacities {
        if wanted.count(*capacity) > count_there(profile, *capacity) as usize {
            return Some(*capacity);
        }
    }
    None
}

/// The first capacity that is exceeded.
fn first_over(wanted: &Wanted, profile: &Profile) -> Option<Capacity>
    ensures none { IfNone result (law.FitsMachine wanted.now profile.now) }
    ensures some { IfSome result (λ first. law.IsFirstOver first wanted.now profile.now) }
{
    first_among(&IN_ORDER, wanted, profile)
}

/// What is told where a capacity is the first that is exceeded.
fn fault_of(capacity: Capacity, wanted: &Wanted, profile: &Profile) -> CapacityFault
    requires { law.IsFirstOver capacity wanted.now profile.now }
    ensures { law.HasCapacityFault wanted.now profile.now result }
{
    let count = wanted.count(capacity);
    let there = count_there(profile, capacity);
    match capacity {
        Capacity::Counters(width) => CapacityFault::Counters {
            width,
            wanted: count,
            there,
        },
        Capacity::Pilots => CapacityFault::Pilots {
            wanted: count,
            there,
        },
        Capacity::Comparing => CapacityFault::Comparing {
            wanted: count,
            there,
        },
        Capacity::StorageWidth => CapacityFault::StorageWidth {
            line: wanted.wide_text(),
        },
        Capacity::StorageUnits => CapacityFault::StorageUnits {
            wanted: count,
            there,
        },
        Capacity::Splits => CapacityFault::Splits {
            wanted: count,
            there,
        },
        Capacity::Indicate(level) => CapacityFault::Indicate {
            level,
            wanted: count,
            there,
        },
    }
}

/// The fault of what is wanted on a machine, if it does not fit.
pub(crate) fn fault_on(wanted: &Wanted, profile: &Profile) -> Option<CapacityFault>
    ensures none { IfNone result (law.FitsMachine wanted.now profile.now) }
    ensures some { IfSome result (law.HasCapacityFault wanted.now profile.now) }
{
    let capacity = first_over(wanted, profile)?;
    Some(fault_of(capacity, wanted, profile))
}
