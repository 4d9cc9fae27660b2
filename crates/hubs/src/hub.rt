//! The hubs of the panel.

ghost use Rattle.std.specs.Prelude.{◌≡◌, ◌==◌};
ghost use Rattle.std.specs.Ordering.{on};
ghost use Rattle.std.specs.Cmp.Lexicographic.{pointwise};
ghost use Rattle.std.specs.Cmp.Rules.{comparing};
ghost use Rattle.std.proofs.Common.{rules};
ghost use Rattle.hubs.specs.Hubs.{hub_named};
ghost use Rattle.hubs.specs.HelperKeys.{hub_key};
ghost use Rattle.hubs.specs.HubTable.Places.{AreSmall};
ghost use Rattle.hubs.specs.declared.hub_table.shape.Numbers.TheVariants.{Bare, One, Two, Three};

use crate::hub_table::{Letters, Numbers};
use std::fmt;

/// A counter group: its width, 3, 4, 6 or 8 positions, and its number among those of its width, 1 to 8.
#[derive(Clone, Copy, Debug, PartialEq, Eq)]
pub struct Group {
    /// How many positions it has.
    pub width: u8,
    /// Its number.
    pub number: u8,
}

/// A hub of the panel, by its letters and its numbers.
///
/// A hub with a number out of range is on no panel: it has no hub number, and is neither exit nor entry.
#[derive(Clone, Copy)]
pub enum Hub {
    /// Exit of the first reading station, for a column 1 to 80.
    FR(u8),
    /// Exit of the second reading station, for a column 1 to 80.
    SR(u8),
    /// Exit of a comparing position, 1 to 30.
    CX(u8),
    /// Exit of a counter position: the group, and the position from 1, the units, to its width.
    GX(Group, u8),
    /// Carry exit of a counter group.
    CO(Group),
    /// Normal exit of a balance position, 1 to 4, of a counter group.
    BAN(Group, u8),
    /// Transferred exit of a balance position, 1 to 4, of a counter group.
    BAT(Group, u8),
    /// Normal exit of a pilot, 1 to 16, and its position, 1 to 3.
    PIN(u8, u8),
    /// Transferred exit of a pilot, 1 to 16, and its position, 1 to 3.
    PIT(u8, u8),
    /// Exit of a storage unit, 1 to 4, and its column, 1 to 16.
    SX(u8, u8),
    /// Exit of a group-indicate position: its level, 1 to 3, and its number, 1 to 30.
    IX(u8, u8),
    /// Exit of a column split, 1 to 16, for the rows 9 to 0.
    CSD(u8),
    /// Exit of a column split, 1 to 16, for the rows 11 and 12.
    CSZ(u8),
    /// Exit of an emitter, 1 to 8, for a row 0 to 9, 11 or 12.
    EM(u8, u8),
    /// The exit that emits at the control point of card cycles.
    CC,
    /// Exit of the program unit: a level, 1 to 4, and its cycle, 1 to 3.
    PX(u8, u8),
    /// Exit of the program unit for a heading cycle, 1 to 3.
    HX(u8),
    /// First entry of a comparing position, 1 to 30.
    CA(u8),
    /// Second entry of a comparing position, 1 to 30.
    CB(u8),
    /// Entry of a counter position: the group, and the position from 1, the units, to its width.
    GE(Group, u8),
    /// Plus entry of a counter group.
    PL(Group),
    /// Minus entry of a counter group.
    MI(Group),
    /// Read-out and reset entry of a counter group.
    RO(Group),
    /// Balance-test entry of a counter group.
    BT(Group),
    /// Carry entry of a counter group.
    CI(Group),
    /// Common entry of a balance position, 1 to 4, of a counter group.
    BAC(Group, u8),
    /// Common entry of a pilot, 1 to 16, and its position, 1 to 3.
    PIC(u8, u8),
    /// Pickup entry of a pilot, 1 to 16.
    PIX(u8),
    /// Entry of a storage unit, 1 to 4, and its column, 1 to 16.
    SE(u8, u8),
    /// Read-in entry of a storage unit, 1 to 4.
    SI(u8),
    /// Read-out entry of a storage unit, 1 to 4.
    SO(u8),
    /// Entry of a group-indicate position: its level, 1 to 3, and its number, 1 to 30.
    IE(u8, u8),
    /// Entry of a column split, 1 to 16.
    CSE(u8),
    /// Entry of a print wheel, 1 to 120.
    W(u8),
    /// Program-start entry of a level, 1 to 3.
    ST(u8),
    /// Spacing entry for 2 or 3 lines.
    SP(u8),
    /// Skip entry of a channel, 1 to 12.
    SK(u8),
    /// The restore entry.
    RS,
}

impl Hub {
    ghost use Rattle.std.specs.Prelude.{◌≡◌, ◌≤◌, Some, IfSome};
    ghost use Rattle.hubs.specs.Hubs.{number_of, is_exit_hub, is_entry_hub, letters_of, numbers_of, hub_named, is_hub_in_range};
    ghost use Rattle.std.specs.Prelude.{true};

    /// Its letters.
    #[inline(always)]
    pub fn letters(self) -> Letters
        ensures { result ≡ letters_of self }
    {
        match self {
            Hub::FR(_) => Letters::FR,
            Hub::SR(_) => Letters::SR,
            Hub::CX(_) => Letters::CX,
            Hub::GX(_, _) => Letters::GX,
            Hub::CO(_) => Letters::CO,
            Hub::BAN(_, _) => Letters::BAN,
            Hub::BAT(_, _) => Letters::BAT,
            Hub::PIN(_, _) => Letters::PIN,
            Hub::PIT(_, _) => Letters::PIT,
            Hub::SX(_, _) => Letters::SX,
            Hub::IX(_, _) => Letters::IX,
            Hub::CSD(_) => Letters::CSD,
            Hub::CSZ(_) => Letters::CSZ,
            Hub::EM(_, _) => Letters::EM,
            Hub::CC => Letters::CC,
            Hub::PX(_, _) => Letters::PX,
            Hub::HX(_) => Letters::HX,
            Hub::CA(_) => Letters::CA,
            Hub::CB(_) => Letters::CB,
            Hub::GE(_, _) => Letters::GE,
            Hub::PL(_) => Letters::PL,
            Hub::MI(_) => Letters::MI,
            Hub::RO(_) => Letters::RO,
            Hub::BT(_) => Letters::BT,
            Hub::CI(_) => Letters::CI,
            Hub::BAC(_, _) => Letters::BAC,
            Hub::PIC(_, _) => Letters::PIC,
            Hub::PIX(_) => Letters::PIX,
            Hub::SE(_, _) => Letters::SE,
            Hub::SI(_) => Letters::SI,
            Hub::SO(_) => Letters::SO,
            Hub::IE(_, _) => Letters::IE,
            Hub::CSE(_) => Letters::CSE,
            Hub::W(_) => Letters::W,
            Hub::ST(_) => Letters::ST,
            Hub::SP(_) => Letters::SP,
            Hub::SK(_) => Letters::SK,
            Hub::RS => Letters::RS,
        }
    }

    /// Its numbers, in the order in which they are written.
    #[inline(always)]
    pub fn numbers(self) -> Numbers
        ensures { result ≡ numbers_of self }
    {
        match self {
            Hub::CC | Hub::RS => Numbers::Bare,
            Hub::FR(n)
            | Hub::SR(n)
            | Hub::CX(n)
            | Hub::CSD(n)
            | Hub::CSZ(n)
            | Hub::HX(n)
            | Hub::CA(n)
            | Hub::CB(n)
            | Hub::PIX(n)
            | Hub::SI(n)
            | Hub::SO(n)
            | Hub::CSE(n)
            | Hub::W(n)
            | Hub::ST(n)
            | Hub::SP(n)
            | Hub::SK(n) => Numbers::One(u16::from(n)),
            Hub::PIN(n, part)
            | Hub::PIT(n, part)
            | Hub::SX(n, part)
            | Hub::IX(n, part)
            | Hub::EM(n, part)
            | Hub::PX(n, part)
            | Hub::PIC(n, part)
            | Hub::SE(n, part)
            | Hub::IE(n, part) => Numbers::Two(u16::from(n), u16::from(part)),
            Hub::CO(group)
            | Hub::PL(group)
            | Hub::MI(group)
            | Hub::RO(group)
            | Hub::BT(group)
            | Hub::CI(group) => group.numbers(),
            Hub::GX(group, part)
            | Hub::BAN(group, part)
            | Hub::BAT(group, part)
            | Hub::GE(group, part)
            | Hub::BAC(group, part) => group.numbers_with(part),
        }
    }

    /// Whether impulses leave here: an exit in range.
    pub fn is_exit(self) -> bool
        ensures { result ≡ is_exit_hub self }
    {
        self.number().is_some() && self.letters().are_exits()
    }

    /// Whether impulses enter here: an entry in range.
    pub fn is_entry(self) -> bool
        ensures { result ≡ is_entry_hub self }
    {
        self.number().is_some() && !self.letters().are_exits()
    }

    /// The hub number, 1 to 1936, of a hub in range.
    // Where the letters are known, as at most calls, little is left of it once it is inlined.
    #[inline(always)]
    pub fn number(self) -> Option<u32>
        ensures value { result ≡ number_of self }
        ensures range { IfSome result (λ number. (1 ≤ number) × (number ≤ 1936)) }
    {
        let place = self.letters().shape().place(self.numbers())?;
        Some(self.letters().before() + place)
    }

    /// The hub that has this number, if there is one.
    pub fn of_number(number: u32) -> Option<Hub>
        ensures numbered { IfSome result (λ hub. number_of hub ≡ Some number) }
        ensures found { (hub : Hub) → number_of hub ≡ Some number → result ≡ Some hub }
    {
        let letters = Letters::of_number(number)?;
        let place = number - letters.before();
        Hub::named(letters, letters.shape().numbers_at(place))
    }

    /// The hub with these letters and numbers, where the panel has it.
    pub fn named(letters: Letters, numbers: Numbers) -> Option<Hub>
        ensures named { IfSome result (λ hub. hub_named letters numbers ≡ Some hub) }
        ensures in_range { IfSome result (λ hub. is_hub_in_range hub ≡ true) }
        ensures found { (hub : Hub) → hub_named letters numbers ≡ Some hub → is_hub_in_range hub ≡ true → result ≡ Some hub }
    {
        letters.shape().place(numbers)?;
        with_numbers(letters, numbers)
    }

    // What tells it from every other hub: how many hubs stand before those of its kind, which no other kind has, and its numbers.
    fn key(self) -> [u32; 4]
        ensures { result ≡ hub_key self }
    {
        let kind = self.letters().before();
        match self.numbers() {
            Numbers::Bare => [kind, 0, 0, 0],
            Numbers::One(n) => [kind, u32::from(n), 0, 0],
            Numbers::Two(n, part) => [kind, u32::from(n), u32::from(part), 0],
            Numbers::Three(width, n, part) => [
                kind,
                u32::from(width),
                u32::from(n),
                u32::from(part),
            ],
        }
    }
}

// By hand, by one number for the letters: a derived one compares each kind of hub with each.
impl PartialEq for Hub {
    ghost eq = { on hub_key (pointwise ◌==◌) };

    ghost laws = { Prim.search (comparing, rules) };

    fn eq(&self, other: &Hub) -> bool {
        self.key() == other.key()
    }
}

impl Eq for Hub {
    ghost laws = { Prim.search (comparing, rules) };
}

impl fmt::Debug for Hub {
    fn fmt<W: fmt::Write>(&self, f: &mut fmt::Formatter<W>) -> fmt::Result {
        f.debug_tuple("Hub")
            .field(&self.letters())
            .field(&self.numbers())
            .finish()
    }
}

impl Group {
    ghost use Rattle.std.specs.Prelude.{◌≡◌};

    // Its width and its number.
    fn numbers(self) -> Numbers
        ensures { result ≡ Numbers.Two self.width self.number }
    {
        Numbers::Two(u16::from(self.width), u16::from(self.number))
    }

    // Its width and its number, and the number of a part of it.
    fn numbers_with(self, part: u8) -> Numbers
        ensures { result ≡ Numbers.Three self.width self.number part }
    {
        Numbers::Three(
            u16::from(self.width),
            u16::from(self.number),
            u16::from(part),
        )
    }
}

// The hub with these letters and numbers, where the hubs of these letters have as many.
fn with_numbers(letters: Letters, numbers: Numbers) -> Option<Hub>
    requires { AreSmall numbers }
    ensures { result ≡ hub_named letters numbers }
{
    match numbers {
        Numbers::Bare => bare(letters),
        Numbers::One(n) => with_one(letters, n as u8),
        Numbers::Two(n, part) => with_two(letters, n as u8, part as u8),
        Numbers::Three(width, number, part) => {
            with_three(letters, width as u8, number as u8, part as u8)
        }
    }
}

// The hub with these letters and no number.
fn bare(letters: Letters) -> Option<Hub>
    ensures { result ≡ hub_named letters Bare }
{
    Some(match letters {
        Letters::CC => Hub::CC,
        Letters::RS => Hub::RS,
        _ => return None,
    })
}

// The hub with these letters and one number.
fn with_one(letters: Letters, n: u8) -> Option<Hub>
    ensures { result ≡ hub_named letters (One n) }
{
    Some(match letters {
        Letters::FR => Hub::FR(n),
        Letters::SR => Hub::SR(n),
        Letters::CX => Hub::CX(n),
        Letters::CSD => Hub::CSD(n),
        Letters::CSZ => Hub::CSZ(n),
        Letters::HX => Hub::HX(n),
        Letters::CA => Hub::CA(n),
        Letters::CB => Hub::CB(n),
        Letters::PIX => Hub::PIX(n),
        Letters::SI => Hub::SI(n),
        Letters::SO => Hub::SO(n),
        Letters::CSE => Hub::CSE(n),
        Letters::W => Hub::W(n),
        Letters::ST => Hub::ST(n),
        Letters::SP => Hub::SP(n),
        Letters::SK => Hub::SK(n),
        _ => return None,
    })
}

// The hub with these letters and two numbers, those of a counter group or others.
fn with_two(letters: Letters, n: u8, part: u8) -> Option<Hub>
    ensures { result ≡ hub_named letters (Two n part) }
{
    let group = Group {
        width: n,
        number: part,
    };
    Some(match letters {
        Letters::CO => Hub::CO(group),
        Letters::PIN => Hub::PIN(n, part),
        Letters::PIT => Hub::PIT(n, part),
        Letters::SX => Hub::SX(n, part),
        Letters::IX => Hub::IX(n, part),
        Letters::EM => Hub::EM(n, part),
        Letters::PX => Hub::PX(n, part),
        Letters::PL => Hub::PL(group),
        Letters::MI => Hub::MI(group),
        Letters::RO => Hub::RO(group),
        Letters::BT => Hub::BT(group),
        Letters::CI => Hub::CI(group),
        Letters::PIC => Hub::PIC(n, part),
        Letters::SE => Hub::SE(n, part),
        Letters::IE => Hub::IE(n, part),
        _ => return None,
    })
}

// The hub with these letters, of a counter group and a number.
fn with_three(letters: Letters, width: u8, number: u8, part: u8) -> Option<Hub>
    ensures { result ≡ hub_named letters (Three width number part) }
{
    let group = Group { width, number };
    Some(match letters {
        Letters::GX => Hub::GX(group, part),
        Letters::BAN => Hub::BAN(group, part),
        Letters::BAT => Hub::BAT(group, part),
        Letters::GE => Hub::GE(group, part),
        Letters::BAC => Hub::BAC(group, part),
        _ => return None,
    })
}
