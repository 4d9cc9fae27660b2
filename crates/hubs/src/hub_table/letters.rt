//! The letters of hubs, and the hub table: a row for each kind of hub.

ghost use Rattle.std.specs.Prelude.{◌≡◌, ◌≢◌, ◌+◌, ◌<◌, ◌≤◌, IfSome, IfNone, All};
ghost use Rattle.hubs.specs.HubTable.HelperRows.{row_as};
ghost use Rattle.hubs.specs.HubTable.HubTable.{row_of, HasNumber};
ghost use Rattle.hubs.specs.HubTable.HubTable as table;
ghost use Rattle.hubs.specs.declared.hub_table.letters.Letters.{Letters};

use crate::hub_table::shape::Shape;

/// The letters of a hub: what kind of hub it is. In the order of the hub table, exits first.
#[derive(Clone, Copy, Debug, PartialEq, Eq)]
pub enum Letters {
    /// Exits of the first reading station, by column.
    FR,
    /// Exits of the second reading station, by column.
    SR,
    /// Exits of the comparing positions.
    CX,
    /// Exits of the counter positions.
    GX,
    /// Carry exits of the counter groups.
    CO,
    /// Balance exits that are led on to while the balance latch is reset, four for each counter group.
    BAN,
    /// Balance exits that are led on to while the balance latch is set.
    BAT,
    /// Pilot exits that are led on to while the pilot is normal, three for each pilot.
    PIN,
    /// Pilot exits that are led on to while the pilot is transferred.
    PIT,
    /// Exits of the storage columns.
    SX,
    /// Exits of the group-indicate positions, by level.
    IX,
    /// Split exits for the digit rows.
    CSD,
    /// Split exits for the zone rows.
    CSZ,
    /// Emitter exits, by emitter and row.
    EM,
    /// The exit at the control point of card cycles.
    CC,
    /// Exits at the control points of program cycles, by level and cycle.
    PX,
    /// Exits at the control points of heading cycles.
    HX,
    /// First entries of the comparing positions.
    CA,
    /// Second entries of the comparing positions.
    CB,
    /// Entries of the counter positions.
    GE,
    /// Plus entries of the counter groups.
    PL,
    /// Minus entries of the counter groups.
    MI,
    /// Read-out and reset entries of the counter groups.
    RO,
    /// Balance-test entries of the counter groups.
    BT,
    /// Carry entries of the counter groups.
    CI,
    /// Common entries of the balance positions.
    BAC,
    /// Common entries of the pilot positions.
    PIC,
    /// Pickup entries of the pilots.
    PIX,
    /// Entries of the storage columns.
    SE,
    /// Read-in entries of the storage units.
    SI,
    /// Read-out entries of the storage units.
    SO,
    /// Entries of the group-indicate positions, by level.
    IE,
    /// Common entries of the splits.
    CSE,
    /// Entries of the print wheels.
    W,
    /// Program-start entries, by level.
    ST,
    /// Spacing entries.
    SP,
    /// Skip entries, by channel.
    SK,
    /// The restore entry.
    RS,
}

/// The kinds of hubs in the order of the hub table.
pub const KINDS: [Letters; 38] = [
    Letters::FR,
    Letters::SR,
    Letters::CX,
    Letters::GX,
    Letters::CO,
    Letters::BAN,
    Letters::BAT,
    Letters::PIN,
    Letters::PIT,
    Letters::SX,
    Letters::IX,
    Letters::CSD,
    Letters::CSZ,
    Letters::EM,
    Letters::CC,
    Letters::PX,
    Letters::HX,
    Letters::CA,
    Letters::CB,
    Letters::GE,
    Letters::PL,
    Letters::MI,
    Letters::RO,
    Letters::BT,
    Letters::CI,
    Letters::BAC,
    Letters::PIC,
    Letters::PIX,
    Letters::SE,
    Letters::SI,
    Letters::SO,
    Letters::IE,
    Letters::CSE,
    Letters::W,
    Letters::ST,
    Letters::SP,
    Letters::SK,
    Letters::RS,
];

impl Letters {
    ghost use Rattle.std.specs.Prelude.{◌≡◌, ◌≢◌, ◌+◌, ◌≤◌, IfSome, IfNone};
    ghost use Rattle.hubs.specs.HubTable.HubTable.{row_of, HasNumber};
    ghost use Rattle.hubs.specs.HubTable.Places.{count_of};
    ghost use Rattle.hubs.specs.declared.hub_table.letters.Letters.{Letters};

    /// The letters as they are written.
    pub fn spelled(self) -> &'static str
        ensures { result.now ≡ (row_of self).spelled }
    {
        self.row().spelled
    }

    /// The letters that are written so, if there are any.
    pub fn of_spelled(token: &[u8]) -> Option<Letters>
        ensures spelled { IfSome result (λ letters. (row_of letters).spelled ≡ token.now) }
        ensures none { IfNone result ((letters : Letters) → (row_of letters).spelled ≢ token.now) }
    {
        find_spelled(&KINDS, token)
    }

    /// Whether impulses leave the hubs of this kind; they enter the others.
    pub fn are_exits(self) -> bool
        ensures { result ≡ (row_of self).is_exit }
    {
        self.row().is_exit
    }

    /// How many hubs stand in the hub table before those of this kind.
    pub fn before(self) -> u32
        ensures value { result ≡ (row_of self).before }
        ensures range { result + count_of (row_of self).shape ≤ 1936 }
    {
        self.row().before
    }

    /// Which numbers the hubs of this kind have.
    pub fn shape(self) -> Shape
        ensures { result ≡ (row_of self).shape }
    {
        self.row().shape
    }

    /// The kind of the hub that has this number, if there is one.
    pub fn of_number(number: u32) -> Option<Letters>
        ensures there { IfSome result (λ letters. HasNumber letters number) }
        ensures none { IfNone result ((letters : Letters) → ¬ HasNumber letters number) }
    {
        find_number(&KINDS, number)
    }

    // The row of the hub table.
    fn row(self) -> TableRow
        ensures { row_as result ≡ row_of self }
    {
        match self {
            Letters::FR => exits("FR", 0, Shape::To(80)),
            Letters::SR => exits("SR", 80, Shape::To(80)),
            Letters::CX => exits("CX", 160, Shape::To(30)),
            Letters::GX => exits("GX", 190, Shape::Positions),
            Letters::CO => exits("CO", 358, Shape::Groups),
            Letters::BAN => exits("BAN", 390, Shape::GroupsEach(4)),
            Letters::BAT => exits("BAT", 518, Shape::GroupsEach(4)),
            Letters::PIN => exits("PIN", 646, Shape::Each(16, 3)),
            Letters::PIT => exits("PIT", 694, Shape::Each(16, 3)),
            Letters::SX => exits("SX", 742, Shape::Each(4, 16)),
            Letters::IX => exits("IX", 806, Shape::Each(3, 30)),
            Letters::CSD => exits("CSD", 896, Shape::To(16)),
            Letters::CSZ => exits("CSZ", 912, Shape::To(16)),
            Letters::EM => exits("EM", 928, Shape::Rows(8)),
            Letters::CC => exits("CC", 1024, Shape::Alone),
            Letters::PX => exits("PX", 1025, Shape::Each(4, 3)),
            Letters::HX => exits("HX", 1037, Shape::To(3)),
            Letters::CA => entries("CA", 1040, Shape::To(30)),
            Letters::CB => entries("CB", 1070, Shape::To(30)),
            Letters::GE => entries("GE", 1100, Shape::Positions),
            Letters::PL => entries("PL", 1268, Shape::Groups),
            Letters::MI => entries("MI", 1300, Shape::Groups),
            Letters::RO => entries("RO", 1332, Shape::Groups),
            Letters::BT => entries("BT", 1364, Shape::Groups),
            Letters::CI => entries("CI", 1396, Shape::Groups),
            Letters::BAC => entries("BAC", 1428, Shape::GroupsEach(4)),
            Letters::PIC => entries("PIC", 1556, Shape::Each(16, 3)),
            Letters::PIX => entries("PIX", 1604, Shape::To(16)),
            Letters::SE => entries("SE", 1620, Shape::Each(4, 16)),
            Letters::SI => entries("SI", 1684, Shape::To(4)),
            Letters::SO => entries("SO", 1688, Shape::To(4)),
            Letters::IE => entries("IE", 1692, Shape::Each(3, 30)),
            Letters::CSE => entries("CSE", 1782, Shape::To(16)),
            Letters::W => entries("W", 1798, Shape::To(120)),
            Letters::ST => entries("ST", 1918, Shape::To(3)),
            Letters::SP => entries("SP", 1921, Shape::TwoOrThree),
            Letters::SK => entries("SK", 1923, Shape::To(12)),
            Letters::RS => entries("RS", 1935, Shape::Alone),
        }
    }
}

// A row of the hub table: the letters as they are written, whether impulses leave, how many hubs stand before, and the
// numbers.
#[derive(Clone, Copy)]
struct TableRow {
    spelled: &'static str,
    is_exit: bool,
    before: u32,
    shape: Shape,
}

// A row of exits.
fn exits(spelled: &'static str, before: u32, shape: Shape) -> TableRow
    ensures { row_as result ≡ table.exits spelled.now before shape }
{
    TableRow {
        spelled,
        is_exit: true,
        before,
        shape,
    }
}

// A row of entries.
fn entries(spelled: &'static str, before: u32, shape: Shape) -> TableRow
    ensures { row_as result ≡ table.entries spelled.now before shape }
{
    TableRow {
        spelled,
        is_exit: false,
        before,
        shape,
    }
}

// The first of these kinds that is written so.
fn find_spelled(kinds: &[Letters], token: &[u8]) -> Option<Letters>
    ensures spelled { IfSome result (λ letters. (row_of letters).spelled ≡ token.now) }
    ensures none { IfNone result (All (λ letters. (row_of letters).spelled ≢ token.now) kinds.now) }
{
    for letters in kinds {
        if letters.spelled().as_bytes() == token {
            return Some(*letters);
        }
    }
    None
}

// The first of these kinds with a hub of this number.
fn find_number(kinds: &[Letters], number: u32) -> Option<Letters>
    ensures there { IfSome result (λ letters. HasNumber letters number) }
    ensures none { IfNone result (All (λ letters. ¬ HasNumber letters number) kinds.now) }
{
    for letters in kinds {
        let before = letters.before();
        if before < number && number <= before + letters.shape().count() {
            return Some(*letters);
        }
    }
    None
}
