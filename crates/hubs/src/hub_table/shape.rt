//! How the hubs of a kind are numbered.

ghost use Rattle.std.specs.Prelude.{◌≡◌, ◌+◌, ◌-◌, ◌*◌, ◌<◌, ◌≤◌, true, Some, IfSome};
ghost use Rattle.hubs.specs.HubTable.Places.{place_of, up_to, two_or_three, row_place, width_place, positions_before, part_place, group_place, is_width, position_place};
ghost use Rattle.hubs.specs.declared.hub_table.shape.Shape.TheVariants.{Positions};

/// The numbers after a hub's letters; those out of a kind's range have no place.
#[derive(Clone, Copy, Debug, PartialEq, Eq)]
pub enum Numbers {
    /// No number.
    Bare,
    /// One number.
    One(u16),
    /// Two numbers.
    Two(u16, u16),
    /// Three numbers.
    Three(u16, u16, u16),
}

/// Which numbers the hubs of a kind have. Hub numbers rise with them, the first number slowest.
#[derive(Clone, Copy, Debug, PartialEq, Eq)]
pub enum Shape {
    /// A single hub, without a number.
    Alone,
    /// One number, 1 to the last.
    To(u16),
    /// One number, 2 or 3.
    TwoOrThree,
    /// Two numbers: 1 to the first last, and 1 to the second last.
    Each(u16, u16),
    /// A number 1 to the last, and a card row: 0 to 9, 11 or 12.
    Rows(u16),
    /// A counter group: its width, 3, 4, 6 or 8, and its number, 1 to 8.
    Groups,
    /// A counter group, and a number 1 to the last.
    GroupsEach(u16),
    /// A counter group, and one of its positions: 1, the units, to its width.
    Positions,
}

impl Shape {
    ghost use Rattle.std.specs.Prelude.{◌≡◌, ◌≤◌, Some, IfSome};
    ghost use Rattle.hubs.specs.HubTable.Places.{place_of, count_of, has_as_many};

    /// The place of the hub with these numbers among the hubs of a kind of this shape, from 1; none where the numbers are
    /// not as many, or out of range.
    #[inline(always)]
    pub fn place(self, numbers: Numbers) -> Option<u32>
        ensures place { result ≡ place_of self numbers }
        ensures range { IfSome result (λ place. (1 ≤ place) × (place ≤ count_of self)) }
    {
        match (self, numbers) {
            (Shape::Alone, Numbers::Bare) => Some(1),
            (Shape::To(last), Numbers::One(n)) => up_to(last, n),
            (Shape::TwoOrThree, Numbers::One(n)) => two_or_three(n),
            (Shape::Each(things, parts), Numbers::Two(n, part)) => {
                part_place(parts, up_to(things, n), up_to(parts, part))
            }
            (Shape::Rows(things), Numbers::Two(n, row)) => {
                part_place(12, up_to(things, n), row_place(row))
            }
            (Shape::Groups, Numbers::Two(width, n)) => group_place(width, n),
            (Shape::GroupsEach(parts), Numbers::Three(width, n, part)) => {
                part_place(parts, group_place(width, n), up_to(parts, part))
            }
            (Shape::Positions, Numbers::Three(width, n, position)) => {
                position_place(width, n, position)
            }
            _ => None,
        }
    }

    /// The numbers of the hub with this place.
    pub fn numbers_at(self, place: u32) -> Numbers
        requires from { 1 ≤ place }
        requires to { place ≤ count_of self }
        ensures { place_of self result ≡ Some place }
    {
        match self {
            Shape::Alone => Numbers::Bare,
            Shape::To(_) => Numbers::One(place as u16),
            Shape::TwoOrThree => Numbers::One(place as u16 + 1),
            Shape::Each(_, parts) => {
                let (n, part) = thing_and_part(place, parts);
                Numbers::Two(n, part)
            }
            Shape::Rows(_) => {
                let (n, row) = thing_and_part(place, 12);
                Numbers::Two(n, row_at(row))
            }
            Shape::Groups => {
                let (width, n) = group_at(place as u16);
                Numbers::Two(width, n)
            }
            Shape::GroupsEach(parts) => {
                let (group, part) = thing_and_part(place, parts);
                let (width, n) = group_at(group);
                Numbers::Three(width, n, part)
            }
            Shape::Positions => position_at(place),
        }
    }

    /// Whether the hubs of a kind of this shape are written with as many numbers.
    pub fn has_as_many(self, numbers: Numbers) -> bool
        ensures { result ≡ has_as_many self numbers }
    {
        match numbers {
            Numbers::Bare => matches!(self, Shape::Alone),
            Numbers::One(_) => matches!(self, Shape::To(_) | Shape::TwoOrThree),
            Numbers::Two(_, _) => matches!(
                self,
                Shape::Each(_, _) | Shape::Rows(_) | Shape::Groups
            ),
            Numbers::Three(_, _, _) => matches!(self, Shape::GroupsEach(_) | Shape::Positions),
        }
    }

    // How many hubs a kind of this shape has.
    pub(crate) fn count(self) -> u32
        ensures { result ≡ count_of self }
    {
        match self {
            Shape::Alone => 1,
            Shape::To(last) => u32::from(last),
            Shape::TwoOrThree => 2,
            Shape::Each(things, parts) => u32::from(things) * u32::from(parts),
            Shape::Rows(things) => u32::from(things) * 12,
            Shape::Groups => 32,
            Shape::GroupsEach(parts) => 32 * u32::from(parts),
            Shape::Positions => 168,
        }
    }
}

// The place of a number 1 to the last.
#[inline(always)]
fn up_to(last: u16, n: u16) -> Option<u32>
    ensures place { result ≡ up_to last n }
    ensures range { IfSome result (λ place. (1 ≤ place) × (place ≤ last)) }
{
    if 1 <= n && n <= last {
        Some(u32::from(n))
    } else {
        None
    }
}

// The place of a number 2 or 3.
fn two_or_three(n: u16) -> Option<u32>
    ensures { result ≡ two_or_three n }
{
    match n {
        2 => Some(1),
        3 => Some(2),
        _ => None,
    }
}

// The place of a card row.
fn row_place(row: u16) -> Option<u32>
    ensures place { result ≡ row_place row }
    ensures range { IfSome result (λ place. (1 ≤ place) × (place ≤ 12)) }
{
    match row {
        0..=9 => Some(u32::from(row) + 1),
        11 | 12 => Some(u32::from(row)),
        _ => None,
    }
}

// The card row at a place.
fn row_at(place: u16) -> u16
    requires from { 1 ≤ place }
    requires to { place ≤ 12 }
    ensures { row_place result ≡ Some place }
{
    if place <= 10 { place - 1 } else { place }
}

// The place of a width of counter groups.
#[inline(always)]
fn width_place(width: u16) -> Option<u32>
    ensures place { result ≡ width_place width }
    ensures range { IfSome result (λ place. (1 ≤ place) × (place ≤ 4)) }
{
    match width {
        3 => Some(1),
        4 => Some(2),
        6 => Some(3),
        8 => Some(4),
        _ => None,
    }
}

// The width of counter groups at a place.
fn width_at(place: u16) -> u16
    requires from { 1 ≤ place }
    requires to { place ≤ 4 }
    ensures { width_place result ≡ Some place }
{
    match place {
        1 => 3,
        2 => 4,
        3 => 6,
        _ => 8,
    }
}

// The place of a part of a thing, where each thing has so many parts.
#[inline(always)]
fn part_place(parts: u16, thing: Option<u32>, part: Option<u32>) -> Option<u32>
    requires thing { IfSome thing (λ place. (1 ≤ place) × (place ≤ 65535)) }
    requires part { IfSome part (λ place. place ≤ parts) }
    ensures { result ≡ part_place parts thing part }
{
    match (thing, part) {
        (Some(thing), Some(part)) => Some((thing - 1) * u32::from(parts) + part),
        _ => None,
    }
}

// The places of a thing and of its part, where each thing has so many parts.
fn thing_and_part(place: u32, parts: u16) -> (u16, u16)
    requires from { 1 ≤ place }
    requires to { place ≤ 65535 * parts }
    ensures thing { 1 ≤ result.0 }
    ensures part { 1 ≤ result.1 }
    ensures last_part { result.1 ≤ parts }
    ensures place { (result.0 - 1) * parts + result.1 ≡ place }
{
    let parts = u32::from(parts);
    let thing = (place - 1) / parts + 1;
    let part = (place - 1) % parts + 1;
    (thing as u16, part as u16)
}

// The place of a counter group.
#[inline(always)]
fn group_place(width: u16, n: u16) -> Option<u32>
    ensures place { result ≡ group_place width n }
    ensures range { IfSome result (λ place. (1 ≤ place) × (place ≤ 32)) }
{
    part_place(8, width_place(width), up_to(8, n))
}

// The counter group at a place: its width and its number.
fn group_at(place: u16) -> (u16, u16)
    requires from { 1 ≤ place }
    requires to { place ≤ 32 }
    ensures { group_place result.0 result.1 ≡ Some place }
{
    let (width, n) = thing_and_part(u32::from(place), 8);
    (width_at(width), n)
}

// How many counter positions stand before those of the groups of a width.
#[inline(always)]
fn positions_before(width: u16) -> u32
    ensures { result ≡ positions_before width }
{
    match width {
        3 => 0,
        4 => 24,
        6 => 56,
        _ => 104,
    }
}

// The place of a counter position.
#[inline(always)]
fn position_place(width: u16, n: u16, position: u16) -> Option<u32>
    ensures { result ≡ position_place width n position }
{
    width_place(width)?;
    let n = up_to(8, n)?;
    let position = up_to(width, position)?;
    Some(positions_before(width) + (n - 1) * u32::from(width) + position)
}

// The width of the groups that have the counter position with a place.
fn width_of_position(place: u32) -> u16
    requires from { 1 ≤ place }
    requires to { place ≤ 168 }
    ensures width { is_width result ≡ true }
    ensures from { positions_before result < place }
    ensures to { place ≤ positions_before result + 8 * result }
{
    match place {
        1..=24 => 3,
        25..=56 => 4,
        57..=104 => 6,
        _ => 8,
    }
}

// The numbers of the counter position with a place.
fn position_at(place: u32) -> Numbers
    requires from { 1 ≤ place }
    requires to { place ≤ 168 }
    ensures { place_of Positions result ≡ Some place }
{
    let width = width_of_position(place);
    let (n, position) = thing_and_part(place - positions_before(width), width);
    Numbers::Three(width, n, position)
}
