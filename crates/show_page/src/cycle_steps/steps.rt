//! Steps.

ghost use Rattle.std.specs.Prelude.{◌≡◌, ◌≤◌, ◌++◌, ◌-◌, OnOk};
ghost use Rattle.std.specs.List.{flat_map, range_with_len};
ghost use Rattle.std.specs.String.{string_bytes};
ghost use Rattle.show_drawings.specs.MarkupWords.Pieces.{GainsEach, GainsOne};
ghost use Rattle.net.specs.Nets.{IsNetOf};
ghost use Rattle.hubs.specs.SetupsWords.Wiring.{Wiring};
ghost use Rattle.show_page.specs.CycleSteps.Steps.{IsStep, IsStepSection, back_text, link_name, link_words, links_close, links_open, links_text, named_point, open_step, point_name, quiet_step, section_head, section_name, section_open, some_links, step_link, step_open, step_picture, step_text, steps_close, wire_curve};

use crate::counts::write_counted;
use crate::cycle_steps::live::live_wires;
use chart_numerals::{push_between, push_number, push_numbered};
use explain_wheels::explanations::FoundLine;
use hubs::setups::Setup;
use machine::KeptPoint;
use net::Net;
use show_drawings::drawings::panel_drawing::{PanelWire, write_picture_open, write_way};
use show_links::write_row_name;
use std::alloc::{AllocError, Global};

// The name of a point by its number, 1 to 14.
fn write_point_name(text: &mut String, number: u32) -> Result<(), AllocError>
    requires { 1 ≤ number }
    ensures { OnOk result (string_bytes text.new ≡ string_bytes text.old ++ point_name number) }
{
    if number == 1 {
        text.push_str("C")
    } else if number <= 11 {
        push_number(text, 11 - number)
    } else if number == 14 {
        text.push_str("K")
    } else {
        push_number(text, number - 1)
    }
}

#[tactic(auto, unfolding(crate::specs::CycleSteps::Steps::named_point))]
// A point by its name.
fn write_point(text: &mut String, number: u32) -> Result<(), AllocError>
    requires { 1 ≤ number }
    ensures { OnOk result (string_bytes text.new ≡ string_bytes text.old ++ named_point number) }
{
    text.push_str("point ")?;
    write_point_name(text, number)?;
    text.push_str(": ")
}

#[tactic(auto, unfolding(crate::specs::CycleSteps::Steps::step_open))]
// The front of a step.
fn write_step_open(text: &mut String, number: u32, count: usize) -> Result<(), AllocError>
    requires { 1 ≤ number }
    ensures { OnOk result (string_bytes text.new ≡ string_bytes text.old ++ step_open number count) }
{
    text.push_str("<details><summary>")?;
    write_point(text, number)?;
    write_counted(text, count, "wire")?;
    text.push_str("</summary>")
}

#[tactic(auto, using(show_drawings::proofs::MarkupWords::Pieces::one_more))]
// The curves of wires.
fn write_curves(text: &mut String, wires: &[PanelWire]) -> Result<(), AllocError>
    ensures { OnOk result (string_bytes text.new ≡ string_bytes text.old ++ flat_map wire_curve wires.now) }
{
    for wire in wires {
        write_way(text, &[wire.exit, wire.entry])?;
    }
    Ok(())
}

#[tactic(auto, unfolding(crate::specs::CycleSteps::Steps::step_picture))]
// Wires over the panel.
fn write_step_picture(text: &mut String, live: &[PanelWire]) -> Result<(), AllocError>
    ensures { OnOk result (string_bytes text.new ≡ string_bytes text.old ++ step_picture live.now) }
{
    write_picture_open(text)?;
    text.push_str("<path d=\"")?;
    write_curves(text, live)?;
    text.push_str("\"/></svg></details>\n")
}

// A step with wires.
fn write_open_step(text: &mut String, number: u32, live: &[PanelWire]) -> Result<(), AllocError>
    requires { 1 ≤ number }
    ensures { OnOk result (string_bytes text.new ≡ string_bytes text.old ++ open_step number live.now) }
{
    write_step_open(text, number, live.len())?;
    write_step_picture(text, live)
}

#[tactic(auto, unfolding(crate::specs::CycleSteps::Steps::quiet_step))]
// A step without wires.
fn write_quiet_step(text: &mut String, number: u32) -> Result<(), AllocError>
    requires { 1 ≤ number }
    ensures { OnOk result (string_bytes text.new ≡ string_bytes text.old ++ quiet_step number) }
{
    text.push_str("<p>")?;
    write_point(text, number)?;
    text.push_str("no wire</p>\n")
}

// A step.
fn write_step(text: &mut String, number: u32, live: &[PanelWire]) -> Result<(), AllocError>
    requires { 1 ≤ number }
    ensures { OnOk result (string_bytes text.new ≡ string_bytes text.old ++ step_text number live.now) }
{
    if live.is_empty() {
        write_quiet_step(text, number)
    } else {
        write_open_step(text, number, live)
    }
}

// The step of a point that was kept, by its number.
fn write_point_step(
    alloc: Global,
    text: &mut String,
    net: &Net,
    points: &[KeptPoint; 14],
    wires: &[PanelWire],
    number: u32,
) -> Result<(), AllocError>
    requires { (1 ≤ number) × (number ≤ 14) }
    ensures { (wiring : Wiring) → IsNetOf wiring net.now
        → OnOk result (GainsOne (IsStep wiring points.now wires.now number) (string_bytes text.old) (string_bytes text.new)) }
{
    let live = live_wires(alloc, net, &points[number as usize - 1], wires)?;
    write_step(text, number, &live)
}

// The steps of all points.
fn write_steps(
    alloc: Global,
    text: &mut String,
    net: &Net,
    points: &[KeptPoint; 14],
    wires: &[PanelWire],
) -> Result<(), AllocError>
    ensures { (wiring : Wiring) → IsNetOf wiring net.now
        → OnOk result (GainsEach (IsStep wiring points.now wires.now) (range_with_len 1 14) (string_bytes text.old) (string_bytes text.new)) }
{
    for passed in 0..14 {
        write_point_step(alloc, text, net, points, wires, passed + 1)?;
    }
    Ok(())
}

// The name of an element.
fn write_name(text: &mut String, page: u64, line: u32) -> Result<(), AllocError>
    ensures { OnOk result (string_bytes text.new ≡ string_bytes text.old ++ section_name page line) }
{
    text.push_str("<section id=\"")?;
    write_row_name(text, page, line)?;
    text.push_str("steps\">")
}

// The link back to the line.
fn write_back(text: &mut String, page: u64, line: u32) -> Result<(), AllocError>
    ensures { OnOk result (string_bytes text.new ≡ string_bytes text.old ++ back_text page line) }
{
    text.push_str("<a href=\"#")?;
    write_row_name(text, page, line)?;
    text.push_str("\">back</a>\n")
}

#[tactic(auto, unfolding(crate::specs::CycleSteps::Steps::section_head))]
// The heading.
fn write_head(text: &mut String, page: u64, line: u32) -> Result<(), AllocError>
    ensures { OnOk result (string_bytes text.new ≡ string_bytes text.old ++ section_head page line) }
{
    push_numbered(text, "<h2>Line ", line)?;
    push_between(text, " of page ", page, ", point by point</h2>\n")
}

#[tactic(auto, unfolding(crate::specs::CycleSteps::Steps::section_open))]
// The front of an element.
fn write_open(text: &mut String, page: u64, line: u32) -> Result<(), AllocError>
    ensures { OnOk result (string_bytes text.new ≡ string_bytes text.old ++ section_open page line) }
{
    write_name(text, page, line)?;
    write_back(text, page, line)?;
    write_head(text, page, line)
}

#[tactic(auto, unfolding(crate::specs::CycleSteps::Steps::steps_close))]
// The end of an element.
fn write_close(text: &mut String) -> Result<(), AllocError>
    ensures { OnOk result (string_bytes text.new ≡ string_bytes text.old ++ steps_close) }
{
    text.push_str("</section>\n")
}

// The element of a line.
fn write_section(
    alloc: Global,
    text: &mut String,
    net: &Net,
    wires: &[PanelWire],
    found: &FoundLine,
) -> Result<(), AllocError>
    ensures { (wiring : Wiring) → IsNetOf wiring net.now
        → OnOk result (GainsOne (IsStepSection wiring wires.now found.now) (string_bytes text.old) (string_bytes text.new)) }
{
    write_open(text, found.kept.line.page, found.kept.line.line)?;
    write_steps(alloc, text, net, &found.kept.points, wires)?;
    write_close(text)
}

#[tactic(auto, unfolding(crate::specs::CycleSteps::Steps::links_open))]
// What stands before links.
fn write_links_open(text: &mut String) -> Result<(), AllocError>
    ensures { OnOk result (string_bytes text.new ≡ string_bytes text.old ++ links_open) }
{
    text.push_str(
        "<div class=\"begin\"><h2>A cycle, point by point</h2>\n<p>Choose a printed line, and open the points of the cycle that printed it:</p>\n<p>",
    )
}

#[tactic(auto, unfolding(crate::specs::CycleSteps::Steps::links_close))]
// What stands behind them.
fn write_links_close(text: &mut String) -> Result<(), AllocError>
    ensures { OnOk result (string_bytes text.new ≡ string_bytes text.old ++ links_close) }
{
    text.push_str("</p></div>\n")
}

// The front of a link.
fn write_link_name(text: &mut String, page: u64, line: u32) -> Result<(), AllocError>
    ensures { OnOk result (string_bytes text.new ≡ string_bytes text.old ++ link_name page line) }
{
    text.push_str("<a href=\"#")?;
    write_row_name(text, page, line)
}

#[tactic(auto, unfolding(crate::specs::CycleSteps::Steps::link_words))]
// The words of a link.
fn write_link_words(text: &mut String, page: u64, line: u32) -> Result<(), AllocError>
    ensures { OnOk result (string_bytes text.new ≡ string_bytes text.old ++ link_words page line) }
{
    push_numbered(text, "steps\">page ", page)?;
    push_between(text, " line ", line, "</a>\n")
}

#[tactic(auto, unfolding(crate::specs::CycleSteps::Steps::step_link))]
// A link to the element of a line.
fn write_link(text: &mut String, found: &FoundLine) -> Result<(), AllocError>
    ensures { OnOk result (string_bytes text.new ≡ string_bytes text.old ++ step_link found.now) }
{
    write_link_name(text, found.kept.line.page, found.kept.line.line)?;
    write_link_words(text, found.kept.line.page, found.kept.line.line)
}

#[tactic(auto, using(show_drawings::proofs::MarkupWords::Pieces::one_more))]
// Links to the elements of lines.
fn write_links(text: &mut String, found: &[FoundLine]) -> Result<(), AllocError>
    ensures { OnOk result (string_bytes text.new ≡ string_bytes text.old ++ flat_map step_link found.now) }
{
    for one in found {
        write_link(text, one)?;
    }
    Ok(())
}

#[tactic(auto, unfolding(crate::specs::CycleSteps::Steps::some_links))]
// Links, with what stands around them.
fn write_some_links(text: &mut String, found: &[FoundLine]) -> Result<(), AllocError>
    ensures { OnOk result (string_bytes text.new ≡ string_bytes text.old ++ some_links found.now) }
{
    write_links_open(text)?;
    write_links(text, found)?;
    write_links_close(text)
}

/// Writes links to the elements of lines, in their order; nothing where there is no line. Fails only where no memory is left; a part of the
/// links may then have been written.
pub fn write_step_links(text: &mut String, found: &[FoundLine]) -> Result<(), AllocError>
    ensures { OnOk result (string_bytes text.new ≡ string_bytes text.old ++ links_text found.now) }
{
    if found.is_empty() {
        Ok(())
    } else {
        write_some_links(text, found)
    }
}

/// Writes the elements of lines, in their order: for each line the fourteen points of the cycle that printed it, as steps. `wires` are those
/// of the setup, and `found` has the cycles. A step that is opened shows the panel with the wires that carry an impulse at its point.
///
/// Fails only where no memory is left; a front of the elements may then have been written.
pub fn write_step_sections(
    alloc: Global,
    text: &mut String,
    setup: &Setup,
    wires: &[PanelWire],
    found: &[FoundLine],
) -> Result<(), AllocError>
    ensures { OnOk result (GainsEach (IsStepSection setup.now wires.now) found.now (string_bytes text.old) (string_bytes text.new)) }
{
    let net = Net::of(alloc, setup)?;
    for one in found {
        write_section(alloc, text, &net, wires, one)?;
    }
    Ok(())
}
