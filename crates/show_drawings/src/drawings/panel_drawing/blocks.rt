//! The blocks of the drawing, and the places of hubs in them.

ghost use Rattle.std.specs.Prelude.{◌≡◌, ◌<◌, ◌≤◌};
ghost use Rattle.show_drawings.specs.DrawingsWords.PanelDrawing.Blocks.{block, block_in, blocks, place_at, place_in, place_of};

use hubs::Hub;
use hubs::hub_table::Letters;

/// A place of the drawing, in units from its left upper corner.
#[derive(Clone, Copy, Debug, PartialEq, Eq)]
pub struct Coordinates {
    /// How far to the right.
    pub x: u32,
    /// How far down.
    pub y: u32,
}

/// A block of the drawing: hubs of one kind whose numbers follow one another, row by row.
#[derive(Clone, Copy, Debug, PartialEq, Eq)]
pub struct Block {
    /// The kind of its hubs.
    pub kind: Letters,
    /// The width of the counter groups whose hubs it has, where the groups of each width have a block of their own; else 0.
    pub width: u32,
    /// How many hubs stand before its own in the hub table.
    pub before: u32,
    /// How many hubs it has.
    pub count: u32,
    /// The place of its first hub.
    pub left: u32,
    /// The same, down.
    pub top: u32,
    /// How many hubs stand in a row.
    pub columns: u32,
    /// How many rows it has. They stand 14 units apart.
    pub rows: u32,
    /// How far the hubs of a row stand apart.
    pub across: u32,
    /// How long the dotted line is that shows a row: a unit longer than from the first hub to the last.
    pub run: u32,
}

/// The blocks, in the order of the hub table.
#[rattlefmt::skip]
pub(crate) static BLOCKS: [Block; 71] = [
    Block { kind: Letters::FR, width: 0, before: 0, count: 80, left: 32, top: 90, columns: 80, rows: 1, across: 15, run: 1186 },
    Block { kind: Letters::SR, width: 0, before: 80, count: 80, left: 32, top: 44, columns: 80, rows: 1, across: 15, run: 1186 },
    Block { kind: Letters::CX, width: 0, before: 160, count: 30, left: 30, top: 138, columns: 30, rows: 1, across: 13, run: 378 },
    Block { kind: Letters::GX, width: 3, before: 190, count: 24, left: 44, top: 294, columns: 3, rows: 8, across: 13, run: 27 },
    Block { kind: Letters::GX, width: 4, before: 214, count: 32, left: 270, top: 294, columns: 4, rows: 8, across: 13, run: 40 },
    Block { kind: Letters::GX, width: 6, before: 246, count: 48, left: 509, top: 294, columns: 6, rows: 8, across: 13, run: 66 },
    Block { kind: Letters::GX, width: 8, before: 294, count: 64, left: 774, top: 294, columns: 8, rows: 8, across: 13, run: 92 },
    Block { kind: Letters::CO, width: 3, before: 358, count: 8, left: 93, top: 294, columns: 1, rows: 8, across: 13, run: 1 },
    Block { kind: Letters::CO, width: 4, before: 366, count: 8, left: 332, top: 294, columns: 1, rows: 8, across: 13, run: 1 },
    Block { kind: Letters::CO, width: 6, before: 374, count: 8, left: 597, top: 294, columns: 1, rows: 8, across: 13, run: 1 },
    Block { kind: Letters::CO, width: 8, before: 382, count: 8, left: 888, top: 294, columns: 1, rows: 8, across: 13, run: 1 },
    Block { kind: Letters::BAN, width: 3, before: 390, count: 32, left: 122, top: 294, columns: 4, rows: 8, across: 13, run: 40 },
    Block { kind: Letters::BAN, width: 4, before: 422, count: 32, left: 361, top: 294, columns: 4, rows: 8, across: 13, run: 40 },
    Block { kind: Letters::BAN, width: 6, before: 454, count: 32, left: 626, top: 294, columns: 4, rows: 8, across: 13, run: 40 },
    Block { kind: Letters::BAN, width: 8, before: 486, count: 32, left: 917, top: 294, columns: 4, rows: 8, across: 13, run: 40 },
    Block { kind: Letters::BAT, width: 3, before: 518, count: 32, left: 186, top: 294, columns: 4, rows: 8, across: 13, run: 40 },
    Block { kind: Letters::BAT, width: 4, before: 550, count: 32, left: 425, top: 294, columns: 4, rows: 8, across: 13, run: 40 },
    Block { kind: Letters::BAT, width: 6, before: 582, count: 32, left: 690, top: 294, columns: 4, rows: 8, across: 13, run: 40 },
    Block { kind: Letters::BAT, width: 8, before: 614, count: 32, left: 981, top: 294, columns: 4, rows: 8, across: 13, run: 40 },
    Block { kind: Letters::PIN, width: 0, before: 646, count: 48, left: 30, top: 186, columns: 12, rows: 4, across: 13, run: 144 },
    Block { kind: Letters::PIT, width: 0, before: 694, count: 48, left: 220, top: 186, columns: 12, rows: 4, across: 13, run: 144 },
    Block { kind: Letters::SX, width: 0, before: 742, count: 64, left: 410, top: 186, columns: 16, rows: 4, across: 13, run: 196 },
    Block { kind: Letters::IX, width: 0, before: 806, count: 90, left: 660, top: 186, columns: 30, rows: 3, across: 13, run: 378 },
    Block { kind: Letters::CSD, width: 0, before: 896, count: 16, left: 450, top: 138, columns: 16, rows: 1, across: 13, run: 196 },
    Block { kind: Letters::CSZ, width: 0, before: 912, count: 16, left: 690, top: 138, columns: 16, rows: 1, across: 13, run: 196 },
    Block { kind: Letters::EM, width: 0, before: 928, count: 96, left: 1066, top: 294, columns: 12, rows: 8, across: 13, run: 144 },
    Block { kind: Letters::CC, width: 0, before: 1024, count: 1, left: 930, top: 138, columns: 1, rows: 1, across: 13, run: 1 },
    Block { kind: Letters::PX, width: 0, before: 1025, count: 12, left: 990, top: 138, columns: 12, rows: 1, across: 13, run: 144 },
    Block { kind: Letters::HX, width: 0, before: 1037, count: 3, left: 1160, top: 138, columns: 3, rows: 1, across: 13, run: 27 },
    Block { kind: Letters::CA, width: 0, before: 1040, count: 30, left: 30, top: 826, columns: 30, rows: 1, across: 13, run: 378 },
    Block { kind: Letters::CB, width: 0, before: 1070, count: 30, left: 450, top: 826, columns: 30, rows: 1, across: 13, run: 378 },
    Block { kind: Letters::GE, width: 3, before: 1100, count: 24, left: 44, top: 594, columns: 3, rows: 8, across: 13, run: 27 },
    Block { kind: Letters::GE, width: 4, before: 1124, count: 32, left: 270, top: 594, columns: 4, rows: 8, across: 13, run: 40 },
    Block { kind: Letters::GE, width: 6, before: 1156, count: 48, left: 509, top: 594, columns: 6, rows: 8, across: 13, run: 66 },
    Block { kind: Letters::GE, width: 8, before: 1204, count: 64, left: 774, top: 594, columns: 8, rows: 8, across: 13, run: 92 },
    Block { kind: Letters::PL, width: 3, before: 1268, count: 8, left: 93, top: 594, columns: 1, rows: 8, across: 13, run: 1 },
    Block { kind: Letters::PL, width: 4, before: 1276, count: 8, left: 332, top: 594, columns: 1, rows: 8, across: 13, run: 1 },
    Block { kind: Letters::PL, width: 6, before: 1284, count: 8, left: 597, top: 594, columns: 1, rows: 8, across: 13, run: 1 },
    Block { kind: Letters::PL, width: 8, before: 1292, count: 8, left: 888, top: 594, columns: 1, rows: 8, across: 13, run: 1 },
    Block { kind: Letters::MI, width: 3, before: 1300, count: 8, left: 116, top: 594, columns: 1, rows: 8, across: 13, run: 1 },
    Block { kind: Letters::MI, width: 4, before: 1308, count: 8, left: 355, top: 594, columns: 1, rows: 8, across: 13, run: 1 },
    Block { kind: Letters::MI, width: 6, before: 1316, count: 8, left: 620, top: 594, columns: 1, rows: 8, across: 13, run: 1 },
    Block { kind: Letters::MI, width: 8, before: 1324, count: 8, left: 911, top: 594, columns: 1, rows: 8, across: 13, run: 1 },
    Block { kind: Letters::RO, width: 3, before: 1332, count: 8, left: 139, top: 594, columns: 1, rows: 8, across: 13, run: 1 },
    Block { kind: Letters::RO, width: 4, before: 1340, count: 8, left: 378, top: 594, columns: 1, rows: 8, across: 13, run: 1 },
    Block { kind: Letters::RO, width: 6, before: 1348, count: 8, left: 643, top: 594, columns: 1, rows: 8, across: 13, run: 1 },
    Block { kind: Letters::RO, width: 8, before: 1356, count: 8, left: 934, top: 594, columns: 1, rows: 8, across: 13, run: 1 },
    Block { kind: Letters::BT, width: 3, before: 1364, count: 8, left: 162, top: 594, columns: 1, rows: 8, across: 13, run: 1 },
    Block { kind: Letters::BT, width: 4, before: 1372, count: 8, left: 401, top: 594, columns: 1, rows: 8, across: 13, run: 1 },
    Block { kind: Letters::BT, width: 6, before: 1380, count: 8, left: 666, top: 594, columns: 1, rows: 8, across: 13, run: 1 },
    Block { kind: Letters::BT, width: 8, before: 1388, count: 8, left: 957, top: 594, columns: 1, rows: 8, across: 13, run: 1 },
    Block { kind: Letters::CI, width: 3, before: 1396, count: 8, left: 185, top: 594, columns: 1, rows: 8, across: 13, run: 1 },
    Block { kind: Letters::CI, width: 4, before: 1404, count: 8, left: 424, top: 594, columns: 1, rows: 8, across: 13, run: 1 },
    Block { kind: Letters::CI, width: 6, before: 1412, count: 8, left: 689, top: 594, columns: 1, rows: 8, across: 13, run: 1 },
    Block { kind: Letters::CI, width: 8, before: 1420, count: 8, left: 980, top: 594, columns: 1, rows: 8, across: 13, run: 1 },
    Block { kind: Letters::BAC, width: 3, before: 1428, count: 32, left: 214, top: 594, columns: 4, rows: 8, across: 13, run: 40 },
    Block { kind: Letters::BAC, width: 4, before: 1460, count: 32, left: 453, top: 594, columns: 4, rows: 8, across: 13, run: 40 },
    Block { kind: Letters::BAC, width: 6, before: 1492, count: 32, left: 718, top: 594, columns: 4, rows: 8, across: 13, run: 40 },
    Block { kind: Letters::BAC, width: 8, before: 1524, count: 32, left: 1009, top: 594, columns: 4, rows: 8, across: 13, run: 40 },
    Block { kind: Letters::PIC, width: 0, before: 1556, count: 48, left: 30, top: 746, columns: 12, rows: 4, across: 13, run: 144 },
    Block { kind: Letters::PIX, width: 0, before: 1604, count: 16, left: 220, top: 746, columns: 16, rows: 1, across: 13, run: 196 },
    Block { kind: Letters::SE, width: 0, before: 1620, count: 64, left: 860, top: 746, columns: 16, rows: 4, across: 13, run: 196 },
    Block { kind: Letters::SI, width: 0, before: 1684, count: 4, left: 1100, top: 746, columns: 1, rows: 4, across: 13, run: 1 },
    Block { kind: Letters::SO, width: 0, before: 1688, count: 4, left: 1140, top: 746, columns: 1, rows: 4, across: 13, run: 1 },
    Block { kind: Letters::IE, width: 0, before: 1692, count: 90, left: 450, top: 746, columns: 30, rows: 3, across: 13, run: 378 },
    Block { kind: Letters::CSE, width: 0, before: 1782, count: 16, left: 220, top: 788, columns: 16, rows: 1, across: 13, run: 196 },
    Block { kind: Letters::W, width: 0, before: 1798, count: 120, left: 35, top: 866, columns: 120, rows: 1, across: 10, run: 1191 },
    Block { kind: Letters::ST, width: 0, before: 1918, count: 3, left: 870, top: 826, columns: 3, rows: 1, across: 13, run: 27 },
    Block { kind: Letters::SP, width: 0, before: 1921, count: 2, left: 960, top: 826, columns: 2, rows: 1, across: 13, run: 14 },
    Block { kind: Letters::SK, width: 0, before: 1923, count: 12, left: 1070, top: 826, columns: 12, rows: 1, across: 13, run: 144 },
    Block { kind: Letters::RS, width: 0, before: 1935, count: 1, left: 1020, top: 826, columns: 1, rows: 1, across: 13, run: 1 },
];

// The block of a hub's number, of those of a table; an empty one, where the number is beyond all.
fn block_in(table: &[Block], number: u32) -> Block
    requires { number ≤ 1936 }
    ensures { result ≡ block_in table.now number }
{
    for block in table {
        if number <= block.before.saturating_add(block.count) {
            return *block;
        }
    }
    Block {
        kind: Letters::RS,
        width: 0,
        before: 0,
        count: 0,
        left: 0,
        top: 0,
        columns: 1,
        rows: 0,
        across: 0,
        run: 0,
    }
}

// The place of a hub's number in its block.
fn place_in(block: Block, number: u32) -> Coordinates
    requires behind { block.before < number }
    requires wide { 0 < block.columns }
    requires small { (block.left ≤ 2000) × (block.top ≤ 2000) × (block.across ≤ 2000) }
    requires within { number ≤ 1936 }
    ensures { result ≡ place_in block number }
{
    let passed = number - block.before - 1;
    Coordinates {
        x: block.left + block.across * (passed % block.columns),
        y: block.top + 14 * (passed / block.columns),
    }
}

// The block of a hub's number.
pub(crate) fn block_at(number: u32) -> Block
    requires { number ≤ 1936 }
    ensures { result ≡ block_in blocks number }
{
    block_in(&BLOCKS, number)
}

// The place of a hub's number.
fn place_at(number: u32) -> Coordinates
    requires from { 1 ≤ number }
    requires to { number ≤ 1936 }
    ensures { result ≡ place_at number }
{
    place_in(block_at(number), number)
}

/// The place of a hub on the drawing; the left upper corner for a hub that the panel doesn't have.
pub fn hub_place(hub: Hub) -> Coordinates
    ensures { result ≡ place_of hub }
{
    match hub.number() {
        Some(number) => place_at(number),
        None => Coordinates { x: 0, y: 0 },
    }
}
