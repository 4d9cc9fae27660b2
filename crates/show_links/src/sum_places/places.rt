//! Places of sums.

ghost use Rattle.std.specs.Prelude.{◌≡◌, ◌<◌, ◌++◌, OnOk};
ghost use Rattle.std.specs.String.{string_bytes};
ghost use Rattle.explain_ledgers.specs.LedgersWords.Accounts.{IsAccount};
ghost use Rattle.explain_wheel_ledgers.specs.Totals.{AreAccounts};
ghost use Rattle.show_links.specs.SumPlaces.Places.{counter_name, group_name, has_sum, is_same_sum, sum_at, sum_behind, sum_link, sum_name, sum_open, units_group, upper_group};

use crate::links::write_row_name;
use chart_numerals::push_numbered;
use counters::group_of_unit;
use explain_ledgers::ledgers::Account;
use explain_wheel_ledgers::{TitledAccount, account_told, find_total, place_printed};
use explain_wheels::explanations::Explanation;
use hubs::Group;
use std::alloc::AllocError;

/// The sum behind a figure of a printed line.
#[derive(Clone, Copy, Debug)]
pub struct SumPlace {
    /// The page of the line.
    pub page: u64,
    /// The line of the page.
    pub line: u32,
    /// A wheel of the figure.
    pub wheel: u8,
    /// The counter group that the figure is printed of: of two groups that stand for one number that with the units.
    pub group: Group,
    /// Of two groups that stand for one number the one with the digits above the units.
    pub upper: Option<Group>,
}

// The group of an account that has the units.
fn units_group(account: Account) -> Group
    requires { IsAccount account }
    ensures { result ≡ units_group account }
{
    match account {
        Account::One { place } => group_of_unit(3 + place as u8),
        Account::Coupled { upper: _, lower } => group_of_unit(3 + lower as u8),
    }
}

// The group of an account that has the digits above those of the units, if it has two groups.
fn upper_group(account: Account) -> Option<Group>
    requires { IsAccount account }
    ensures { result ≡ upper_group account }
{
    match account {
        Account::One { place: _ } => None,
        Account::Coupled { upper, lower: _ } => Some(group_of_unit(3 + upper as u8)),
    }
}

/// The sum behind the character of a wheel that is printed of the group of a place, by its explanation and the totals that are known: that
/// of the total which this group serves, or else of the one group.
pub fn sum_at(totals: &[TitledAccount], why: &Explanation, place: usize) -> SumPlace
    requires accounts { AreAccounts totals.now }
    requires place { place < 32 }
    ensures { result ≡ sum_at totals.now why.now place }
{
    let total = find_total(totals, place);
    let account = account_told(&total, place);
    let group = units_group(account);
    let upper = upper_group(account);
    SumPlace {
        page: why.line.page,
        line: why.line.line,
        wheel: why.wheel,
        group,
        upper,
    }
}

/// The sum behind the character that a wheel printed, by its explanation and the totals that are known: that of the counter group at whose
/// exit a way to the wheel begins, or of both groups of the total that this group serves. None if no way begins at a counter group.
pub fn sum_behind(totals: &[TitledAccount], why: &Explanation) -> Option<SumPlace>
    requires { AreAccounts totals.now }
    ensures { result ≡ sum_behind totals.now why.now }
{
    match place_printed(why) {
        Some(place) => Some(sum_at(totals, why, place)),
        None => None,
    }
}

// Whether two figures have the same sum behind them.
fn is_same_sum(one: SumPlace, other: SumPlace) -> bool
    ensures { result ≡ is_same_sum one other }
{
    one.page == other.page
        && one.line == other.line
        && one.group.width == other.group.width
        && one.group.number == other.group.number
}

/// Whether the sum behind a figure is one of some sums.
pub fn has_sum(sums: &[SumPlace], sum: SumPlace) -> bool
    ensures { result ≡ has_sum sums.now sum }
{
    for one in sums {
        if is_same_sum(*one, sum) {
            return true;
        }
    }
    false
}

#[tactic(auto, unfolding(crate::specs::SumPlaces::Places::counter_name))]
/// Writes the name of a counter: `counter 6.1`. Fails only if no memory is left; a front of it may then have been written.
pub fn write_counter_name(text: &mut String, group: Group) -> Result<(), AllocError>
    ensures { OnOk result (string_bytes text.new ≡ string_bytes text.old ++ counter_name group) }
{
    push_numbered(text, "counter ", group.width)?;
    push_numbered(text, ".", group.number)
}

#[tactic(auto, unfolding(crate::specs::SumPlaces::Places::group_name))]
// The name of a counter group in that of a sum.
fn write_group_name(text: &mut String, group: Group) -> Result<(), AllocError>
    ensures { OnOk result (string_bytes text.new ≡ string_bytes text.old ++ group_name group) }
{
    push_numbered(text, "g", group.width)?;
    push_numbered(text, "-", group.number)
}

#[tactic(auto, unfolding(crate::specs::SumPlaces::Places::sum_name))]
/// Writes the name of the element of a sum: its page, its line, and its counter group, as `p1l5g8-1`. Fails only if no memory is left; a
/// front of it may then have been written.
pub fn write_sum_name(text: &mut String, sum: SumPlace) -> Result<(), AllocError>
    ensures { OnOk result (string_bytes text.new ≡ string_bytes text.old ++ sum_name sum) }
{
    write_row_name(text, sum.page, sum.line)?;
    write_group_name(text, sum.group)
}

#[tactic(auto, unfolding(crate::specs::SumPlaces::Places::sum_open))]
/// Writes a link to the element of a sum, up to its words. Fails only if no memory is left; a front of it may then have been written.
pub fn write_sum_open(text: &mut String, sum: SumPlace) -> Result<(), AllocError>
    ensures { OnOk result (string_bytes text.new ≡ string_bytes text.old ++ sum_open sum) }
{
    text.push_str("<a href=\"#")?;
    write_sum_name(text, sum)?;
    text.push_str("\">")
}

/// Writes a link to the sum behind a figure, if there is one and it is one of those that have an element. Fails only if no memory is left; a
/// front of it may then have been written.
pub fn write_sum_link(
    text: &mut String,
    sums: &[SumPlace],
    sum: Option<SumPlace>,
) -> Result<(), AllocError>
    ensures { OnOk result (string_bytes text.new ≡ string_bytes text.old ++ sum_link sums.now sum) }
{
    match sum {
        Some(sum) if has_sum(sums, sum) => {
            text.push_str(" ")?;
            write_sum_open(text, sum)?;
            text.push_str("the sum behind it</a>")
        }
        _ => Ok(()),
    }
}
