//! Smaller machines than the standard one: the first capacity that a chart exceeds, and the counter groups that it takes.

use allocate::{CapacityFault, allocate};
use capacity::{CounterGroup, Profile};
use chart_lines::charts::ControlLevel;
use chart_rules::{Chart, check};
use chart_text::read_chart;
use std::alloc::Global;
use std::process::Abort;
use std::test::Fail;

const NO_PILOTS: CapacityFault = CapacityFault::Pilots {
    wanted: 1,
    there: 0,
};

const FEW_COMPARING: CapacityFault = CapacityFault::Comparing {
    wanted: 3,
    there: 2,
};

const NO_STORAGE: CapacityFault = CapacityFault::StorageUnits {
    wanted: 1,
    there: 0,
};

const NO_SPLITS: CapacityFault = CapacityFault::Splits {
    wanted: 1,
    there: 0,
};

const NO_INDICATE: CapacityFault = CapacityFault::Indicate {
    level: ControlLevel::Major,
    wanted: 1,
    there: 0,
};

/// Two groups for three totals of 3 digits.
const FEW_GROUPS: CapacityFault = CapacityFault::Counters {
    width: 3,
    wanted: 3,
    there: 2,
};

/// Two totals of 3 digits, and three.
#[rattlefmt::skip]
const THREES: &[u8] = b"PRINT GROUP\nFORM 12 1 9\nFIELD Q1 AMOUNT 1 3 0\nTOTAL 4 3 Q1 3\nFIELD Q2 AMOUNT 1 3 0\nTOTAL 4 6 Q2 3\n";

#[rattlefmt::skip]
const THREE_THREES: &[u8] = b"PRINT GROUP\nFORM 12 1 9\nFIELD Q1 AMOUNT 1 3 0\nTOTAL 4 3 Q1 3\nFIELD Q2 AMOUNT 1 3 0\nTOTAL 4 6 Q2 3\nFIELD Q3 AMOUNT 1 3 0\nTOTAL 4 9 Q3 3\n";

/// A signed total alone.
const BALANCE: &[u8] =
    b"FIELD AMT AMOUNT 1 2 0 X 3\nPRINT GROUP\nTOTAL 4 1 AMT 2 MARK CR\nFORM 12 1 9\n";

/// Totals of four levels, with three control fields, one of them shown on the first card of its group.
#[rattlefmt::skip]
const LEVELS: &[u8] = b"FIELD MAJ TEXT 1 1\nFIELD INT TEXT 2 2\nFIELD MIN TEXT 3 3\nFIELD QTY AMOUNT 4 5 0\nCONTROL 3 MAJ\nCONTROL 2 INT\nCONTROL 1 MIN\nPRINT DETAIL\nDETAIL 1 MAJ INDICATE 3\nDETAIL 3 QTY\nTOTAL 1 3 QTY 2\nTOTAL 1 8 'MIN'\nTOTAL 2 3 QTY 2\nTOTAL 2 8 'INT'\nTOTAL 3 3 QTY 2\nTOTAL 3 8 'MAJ'\nTOTAL 4 3 QTY 2\nTOTAL 4 8 'ALL'\nFORM 30 1 25\n";

/// A control field's text on a total line.
#[rattlefmt::skip]
const DEPARTMENTS: &[u8] = b"FIELD DEPT TEXT 1 2\nFIELD QTY AMOUNT 3 4 0\nCONTROL 1 DEPT\nPRINT GROUP\nTOTAL 1 1 DEPT\nTOTAL 1 5 QTY 3\nAFTER TOTAL 1 PAGE\nFORM 12 1 9\n";

/// The same with a text of 17 columns.
#[rattlefmt::skip]
const WIDE_DEPARTMENTS: &[u8] = b"FIELD DEPT TEXT 1 17\nFIELD QTY AMOUNT 18 19 0\nCONTROL 1 DEPT\nPRINT GROUP\nTOTAL 1 1 DEPT\nTOTAL 1 20 QTY 3\nAFTER TOTAL 1 PAGE\nFORM 12 1 9\n";

/// An amount with its sign over its own last column.
const OVERPUNCHED: &[u8] =
    b"FIELD AMT AMOUNT 1 2 0 X 2\nFIELD T TEXT 3 3\nPRINT DETAIL\nDETAIL 1 AMT MARK -\nDETAIL 5 T\nFORM 12 1 9\n";

/// The pilots, comparing positions, storage units, splits and indicate positions of the standard machine.
const STANDARD: [u8; 5] = [16, 30, 4, 16, 30];

/// Charts on machines with so many counter groups of 3, 4, 6 and 8 positions and so much of the others, and the fault of each.
#[rattlefmt::skip]
static EXCEEDED: [(&[u8], [u8; 4], [u8; 5], CapacityFault); 7] = [
    (BALANCE, [8; 4], [0, 30, 4, 16, 30], NO_PILOTS),
    (LEVELS, [8; 4], [16, 2, 4, 16, 30], FEW_COMPARING),
    (DEPARTMENTS, [8; 4], [16, 30, 0, 16, 30], NO_STORAGE),
    (WIDE_DEPARTMENTS, [8; 4], STANDARD, CapacityFault::StorageWidth { line: 6 }),
    (OVERPUNCHED, [8; 4], [16, 30, 4, 0, 30], NO_SPLITS),
    (LEVELS, [8; 4], [16, 30, 4, 16, 0], NO_INDICATE),
    (THREE_THREES, [1, 1, 0, 0], STANDARD, FEW_GROUPS),
];

/// The chart of some lines, which break no rule.
fn chart_of(alloc: Global, lines: &[u8]) -> Result<Chart, Fail> {
    let mut text = b"CHART407 1\n".to_vec(alloc)?;
    text.extend_from_slice(lines)?;
    text.extend_from_slice(b"END\n")?;
    Ok(check(alloc, read_chart(alloc, text.as_slice())?)?)
}

/// A machine that has no more than the standard one, if it is that.
fn machine(groups: [u8; 4], numbers: [u8; 5]) -> Option<Profile> {
    let [pilots, comparing, storage, splits, indicate] = numbers;
    Profile::smaller(groups, pilots, comparing, storage, splits, indicate)
}

/// Sees that each chart exceeds its capacity first.
fn exceed(
    rt: &impl Abort,
    alloc: Global,
    rows: &[(&[u8], [u8; 4], [u8; 5], CapacityFault)],
) -> Result<(), Fail> {
    for (lines, groups, numbers, fault) in rows {
        let chart = chart_of(alloc, lines)?;
        let machine = machine(*groups, *numbers).ok_or("no smaller machine")?;
        let plan = allocate(alloc, &chart, &machine);
        assert!(rt; plan.err() == Some(*fault));
    }
    Ok(())
}

#[test]
fn smaller_machines(rt: HostRuntime) -> Result<(), Fail> {
    exceed(&rt, rt.alloc(), &EXCEEDED)?;
    // The second total takes a wider group, since the width is used up.
    let chart = chart_of(rt.alloc(), THREES)?;
    let machine = machine([1, 1, 0, 0], STANDARD).ok_or("no smaller machine")?;
    let plan = allocate(rt.alloc(), &chart, &machine)?;
    let taken = [(3, 1), (4, 1)];
    assert_eq!(rt; plan.counters().len(), taken.len());
    for (counter, (width, number)) in plan.counters().iter().zip(taken) {
        assert!(rt; counter.single_group() == Some(CounterGroup { width, number }));
    }
    assert!(rt; Profile::smaller([8; 4], 17, 30, 4, 16, 30).is_none());
    Ok(())
}
