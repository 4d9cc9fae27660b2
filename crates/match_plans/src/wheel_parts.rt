//! The column splits and the indicate positions that a setup shows: each is named by the print wheel to which it leads.

ghost use Rattle.std.specs.Prelude.{◌≡◌, ◌↔◌, ◌≤◌, ◌++◌, ℕ, List, IsTrue, IfNone, IfOk, IfSome, OnOk, Some};
ghost use Rattle.std.specs.Option.{IsSomeAnd};
ghost use Rattle.hubs.specs.declared.hub.Hub.TheVariants.{W};
ghost use Rattle.match_plans.specs.WheelParts.{AreLed, detail_wheel, exit_of, indicated_wheels, sign_wheel, split_wheel, split_wheels, wheel_at, wheels_from};
ghost use Rattle.match_plans.specs.Renumbered.{AreShown, ShowsNoParts};
ghost use Rattle.chart_plans.specs.PlansWords.PartNumbers.{AreThere};
ghost use Rattle.hubs.specs.SetupsWords.Wiring.{HasWire};
ghost use Rattle.chart_plans.specs.WantedWords.Positions.{indicated_field};

use chart_lines::charts::{ControlLevel, DetailOption, Field, Statement};
use chart_plans::plans::PartKind;
use chart_rules::Chart;
use hubs::Hub;
use hubs::setups::Setup;
use std::alloc::{AllocError, Global};
use wiring_lines::line_wires::digit_wheel;

/// A kind of part that leads to print wheels.
#[derive(Clone, Copy)]
pub(crate) enum WheelPart {
    /// A column split, by its digit exit.
    Split,
    /// An indicate position of a level.
    Indicated(ControlLevel),
}

// The exit of the part of a number.
fn exit_of(part: WheelPart, number: u8) -> Hub
    ensures { result ≡ exit_of part number }
{
    match part {
        WheelPart::Split => Hub::CSD(number),
        WheelPart::Indicated(level) => Hub::IX(level.number(), number),
    }
}

// Whether the part of a number leads to a wheel.
fn leads_to(setup: &Setup, wheel: u8, part: WheelPart, number: u8) -> bool
    ensures { IsTrue result ↔ HasWire setup.now (exit_of part number) (W wheel) }
{
    setup.has(exit_of(part, number), Hub::W(wheel))
}

// The number of a part that leads to a wheel, if there is one: the first.
fn number_led(setup: &Setup, wheel: u8, part: WheelPart, last: u8) -> Option<u8>
    requires { last ≤ 30 }
    ensures there { IfSome result (λ number. (1 ≤ number) × (number ≤ last)) }
    ensures shown { IfSome result (λ number. HasWire setup.now (exit_of part number) (W wheel)) }
    ensures none { IfNone result ((number : ℕ) → 1 ≤ number → number ≤ last → ¬ HasWire setup.now (exit_of part number) (W wheel)) }
{
    for place in 0..last {
        if leads_to(setup, wheel, part, place + 1) {
            return Some(place + 1);
        }
    }
    None
}

// The number of a part that leads to a wheel, where there is such a wheel.
fn shown_number(setup: &Setup, wheel: u32, part: WheelPart, last: u8) -> Option<u8>
    requires { last ≤ 30 }
    ensures there { IfSome result (λ number. (1 ≤ number) × (number ≤ last)) }
    ensures shown { IfSome result (λ number. HasWire setup.now (exit_of part number) (W wheel)) }
    ensures none { IfNone result ((number : ℕ) → 1 ≤ number → number ≤ last → ¬ HasWire setup.now (exit_of part number) (W wheel)) }
{
    if wheel < 256 {
        number_led(setup, wheel as u8, part, last)
    } else {
        None
    }
}

// The numbers of the parts that lead to wheels, in their order, each the first; none where none leads to one of them.
fn led_numbers(
    alloc: Global,
    setup: &Setup,
    wheels: &[u32],
    part: WheelPart,
    last: u8,
) -> Result<Option<Vec<u8>>, AllocError>
    requires { last ≤ 30 }
    ensures there { IfOk result (λ shown. IfSome shown (λ list. AreThere last list.items)) }
    ensures found { IfOk result (λ shown. (numbers : List ℕ) → AreLed setup.now part last wheels.now numbers
        → IsSomeAnd shown (λ list. list.items ≡ numbers)) }
{
    let mut numbers = Vec::new(alloc);
    for wheel in wheels {
        match shown_number(setup, *wheel, part, last) {
            Some(number) => numbers.push(number)?,
            None => return Ok(None),
        }
    }
    Ok(Some(numbers))
}

// The wheel of the digit in a column of an amount from a wheel on, if the column is one of its own.
fn wheel_at(wheel: u16, field: Field, column: Option<u16>) -> Option<u32>
    ensures { result ≡ wheel_at wheel field column }
{
    let column = column?;
    let kind = field.kind;
    if field.first <= column && column <= field.last {
        let position = u32::from(field.last) + 1 - u32::from(column);
        Some(digit_wheel(wheel, field.columns(), kind.decimals(), position))
    } else {
        None
    }
}

// The wheel of the sign digit of an amount from a wheel on, if its sign column is one of its own.
fn sign_wheel(wheel: u16, field: Option<Field>) -> Option<u32>
    ensures { result ≡ sign_wheel wheel field }
{
    let field = field?;
    let kind = field.kind;
    let column = kind.sign_column();
    wheel_at(wheel, field, column)
}

// The wheel of the sign digit of the amount that a line puts on the line of a card, if its sign column is one of its own.
fn split_wheel(chart: &Chart, statement: &Statement) -> Option<u32>
    ensures { result ≡ split_wheel chart.now.lines statement.now }
{
    match statement {
        Statement::DetailField { wheel, name, .. } => sign_wheel(*wheel, chart.field(*name)),
        _ => None,
    }
}

// The wheels of all such digits, in the order of their lines.
fn split_wheels(alloc: Global, chart: &Chart) -> Result<Vec<u32>, AllocError>
    ensures { IfOk result (λ wheels. wheels.items ≡ split_wheels chart.now.lines) }
{
    chart
        .lines()
        .iter()
        .filter_map(|line| split_wheel(chart, &line.statement))
        .collect(alloc)
}

// The wheel from which on a line puts a field on the line of a card.
fn detail_wheel(statement: &Statement) -> u16
    ensures { result ≡ detail_wheel statement.now }
{
    match statement {
        Statement::DetailField { wheel, .. } => *wheel,
        _ => 0,
    }
}

// The field that a line indicates at a level, if it does.
fn indicated_field(chart: &Chart, level: ControlLevel, statement: &Statement) -> Option<Field>
    ensures { result ≡ indicated_field chart.now.lines level statement.now }
{
    match statement {
        Statement::DetailField {
            name,
            shown: DetailOption::Indicated(of_level),
            ..
        } if *of_level == level => chart.field(*name),
        _ => None,
    }
}

// Puts the wheels of the columns of a field, from a wheel on, behind others.
fn push_wheels(wheels: &mut Vec<u32>, wheel: u16, field: Field) -> Result<(), AllocError>
    ensures { OnOk result (wheels.new.items ≡ wheels.old.items ++ wheels_from wheel (Some field)) }
{
    let start = u32::from(wheel);
    for place in 0..field.columns() {
        wheels.push(start + place)?;
    }
    Ok(())
}

// The wheels of the columns of the texts that are indicated at a level, in the order of their lines.
fn indicated_wheels(
    alloc: Global,
    chart: &Chart,
    level: ControlLevel,
) -> Result<Vec<u32>, AllocError>
    ensures { IfOk result (λ wheels. wheels.items ≡ indicated_wheels chart.now.lines level) }
{
    let mut wheels = Vec::new(alloc);
    for line in chart.lines() {
        if let Some(field) = indicated_field(chart, level, &line.statement) {
            push_wheels(&mut wheels, detail_wheel(&line.statement), field)?;
        }
    }
    Ok(wheels)
}

/// The column splits that a setup shows for the amounts of a chart whose sign column is one of their own, in the order of their lines; none
/// where it shows none for one of them.
pub(crate) fn shown_splits(
    alloc: Global,
    chart: &Chart,
    setup: &Setup,
) -> Result<Option<Vec<u8>>, AllocError>
    ensures there { IfOk result (λ shown. IfSome shown (λ list. AreThere 16 list.items)) }
    ensures shown { IfOk result (λ found. IfSome found (λ list. AreShown chart.now.lines setup.now PartKind.Split list.items)) }
    ensures none { IfOk result (λ found. IfNone found (ShowsNoParts chart.now.lines setup.now)) }
{
    // Called for its promise alone, that the chart breaks no rule and its line numbers rise: it saves a `requires`.
    let _lines = chart.lines();
    let wheels = split_wheels(alloc, chart)?;
    led_numbers(alloc, setup, wheels.as_slice(), WheelPart::Split, 16)
}

/// The indicate positions of a level that a setup shows for the texts of a chart that are indicated at it, in the order of their lines and
/// columns; none where it shows none for one of them.
pub(crate) fn shown_indicates(
    alloc: Global,
    chart: &Chart,
    setup: &Setup,
    level: ControlLevel,
) -> Result<Option<Vec<u8>>, AllocError>
    ensures there { IfOk result (λ shown. IfSome shown (λ list. AreThere 30 list.items)) }
    ensures shown { IfOk result (λ found. IfSome found (λ list. AreShown chart.now.lines setup.now (PartKind.Indicate level) list.items)) }
    ensures none { IfOk result (λ found. IfNone found (ShowsNoParts chart.now.lines setup.now)) }
{
    // Called for its promise alone, that the chart breaks no rule and its line numbers rise: it saves a `requires`.
    let _lines = chart.lines();
    let wheels = indicated_wheels(alloc, chart, level)?;
    led_numbers(
        alloc,
        setup,
        wheels.as_slice(),
        WheelPart::Indicated(level),
        30,
    )
}

// The entry of the part of a number.
fn entry_of(part: WheelPart, number: u8) -> Hub {
    match part {
        WheelPart::Split => Hub::CSE(number),
        WheelPart::Indicated(level) => Hub::IE(level.number(), number),
    }
}

// Whether a column at second reading enters the part of a number.
fn enters(setup: &Setup, column: u32, part: WheelPart, number: u8) -> bool {
    column < 256 && setup.has(Hub::SR(column as u8), entry_of(part, number))
}

// The part that leads to a wheel, else the first that its column enters.
fn near_number(setup: &Setup, wheel: u32, column: u32, part: WheelPart, last: u8) -> Option<u8>
    requires { last ≤ 30 }
{
    let shown = shown_number(setup, wheel, part, last);
    if shown.is_some() {
        return shown;
    }
    for place in 0..last {
        if enters(setup, column, part, place + 1) {
            return Some(place + 1);
        }
    }
    None
}

// The sign column of the amount that a line puts on the line of a card; 0 where there is none.
fn sign_column(chart: &Chart, statement: &Statement) -> u16 {
    match statement {
        Statement::DetailField { name, .. } => match chart.field(*name) {
            Some(field) => field.kind.sign_column().unwrap_or(0),
            None => 0,
        },
        _ => 0,
    }
}

/// The column split that a setup shows for each amount whose sign column is one of its own, or that this column enters, in the order of their
/// lines.
pub(crate) fn near_splits(
    alloc: Global,
    chart: &Chart,
    setup: &Setup,
) -> Result<Vec<Option<u8>>, AllocError> {
    let mut near = Vec::new(alloc);
    for line in chart.lines() {
        if let Some(wheel) = split_wheel(chart, &line.statement) {
            let column = u32::from(sign_column(chart, &line.statement));
            near.push(near_number(setup, wheel, column, WheelPart::Split, 16))?;
        }
    }
    Ok(near)
}

// Puts the indicate positions of the columns of a field behind others.
fn push_near(
    near: &mut Vec<Option<u8>>,
    setup: &Setup,
    wheel: u16,
    field: Field,
    level: ControlLevel,
) -> Result<(), AllocError> {
    let first = u32::from(field.first);
    let start = u32::from(wheel);
    for place in 0..field.columns() {
        let part = WheelPart::Indicated(level);
        near.push(near_number(setup, start + place, first + place, part, 30))?;
    }
    Ok(())
}

/// The indicate position of a level that a setup shows for each column that is indicated at it, or that the column enters, in their order.
pub(crate) fn near_indicates(
    alloc: Global,
    chart: &Chart,
    setup: &Setup,
    level: ControlLevel,
) -> Result<Vec<Option<u8>>, AllocError> {
    let mut near = Vec::new(alloc);
    for line in chart.lines() {
        if let Some(field) = indicated_field(chart, level, &line.statement) {
            push_near(
                &mut near,
                setup,
                detail_wheel(&line.statement),
                field,
                level,
            )?;
        }
    }
    Ok(near)
}
