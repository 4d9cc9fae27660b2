//! The contacts of the panel, as runs of hubs that follow one another.

use machine_sets::bit_sets::Run;

/// The contacts, by places: the hub with the number h is the place h - 1.
pub(crate) const CONTACTS: [Run; 7] = [
    // CI to CO.
    Run {
        common: 1396,
        exits: 358,
        count: 32,
    },
    // BAC to BAN.
    Run {
        common: 1428,
        exits: 390,
        count: 128,
    },
    // BAC to BAT.
    Run {
        common: 1428,
        exits: 518,
        count: 128,
    },
    // PIC to PIN.
    Run {
        common: 1556,
        exits: 646,
        count: 48,
    },
    // PIC to PIT.
    Run {
        common: 1556,
        exits: 694,
        count: 48,
    },
    // IE to IX and, next to them on both sides, CSE to CSD.
    Run {
        common: 1692,
        exits: 806,
        count: 106,
    },
    // CSE to CSZ.
    Run {
        common: 1782,
        exits: 912,
        count: 16,
    },
];
