//! Which sums of a page the counter of a hub held.

ghost use Rattle.std.specs.Prelude.{◌≡◌, ◌++◌, OnOk};
ghost use Rattle.std.specs.String.{string_bytes};
ghost use Rattle.show_sections.specs.WireSections.Held.{group_of_hub, has_held, held_by, held_link, held_links, held_open, held_some, held_text, is_upper, line_link, line_words};

use chart_numerals::{push_between, push_numbered};
use hubs::{Group, Hub, is_one_group};
use show_links::sum_places::{SumPlace, write_counter_name, write_sum_open};
use std::alloc::{AllocError, Global};

// The counter group that a hub belongs to; none if it is no hub of a counter.
fn group_of_hub(hub: Hub) -> Option<Group>
    ensures { result ≡ group_of_hub hub }
{
    match hub {
        Hub::CO(group)
        | Hub::PL(group)
        | Hub::MI(group)
        | Hub::RO(group)
        | Hub::BT(group)
        | Hub::CI(group) => Some(group),
        Hub::GX(group, _)
        | Hub::BAN(group, _)
        | Hub::BAT(group, _)
        | Hub::GE(group, _)
        | Hub::BAC(group, _) => Some(group),
        _ => None,
    }
}

// Whether a counter group is the upper one of two, if there are two.
fn is_upper(upper: Option<Group>, group: Group) -> bool
    ensures { result ≡ is_upper upper group }
{
    match upper {
        Some(upper) => is_one_group(upper, group),
        None => false,
    }
}

// Whether a sum is printed of a counter group.
fn has_held(group: Group, sum: SumPlace) -> bool
    ensures { result ≡ has_held group sum }
{
    is_one_group(sum.group, group) || is_upper(sum.upper, group)
}

#[tactic(auto, unfolding(crate::specs::WireSections::Held::line_words))]
// The words of a link to a sum.
fn write_line_words(text: &mut String, sum: SumPlace) -> Result<(), AllocError>
    ensures { OnOk result (string_bytes text.new ≡ string_bytes text.old ++ line_words sum) }
{
    push_numbered(text, "page ", sum.page)?;
    push_between(text, " line ", sum.line, "</a>\n")
}

#[tactic(auto, unfolding(crate::specs::WireSections::Held::line_link))]
// A link to a sum, by its line.
fn write_line_link(text: &mut String, sum: SumPlace) -> Result<(), AllocError>
    ensures { OnOk result (string_bytes text.new ≡ string_bytes text.old ++ line_link sum) }
{
    write_sum_open(text, sum)?;
    write_line_words(text, sum)
}

// The link to a sum, if a counter group held it.
fn write_held_link(text: &mut String, group: Group, sum: SumPlace) -> Result<(), AllocError>
    ensures { OnOk result (string_bytes text.new ≡ string_bytes text.old ++ held_link group sum) }
{
    if has_held(group, sum) {
        write_line_link(text, sum)
    } else {
        Ok(())
    }
}

#[tactic(auto, using(show_drawings::proofs::MarkupWords::Pieces::one_more))]
// The links to the sums that a counter group held.
fn write_held_links(text: &mut String, sums: &[SumPlace], group: Group) -> Result<(), AllocError>
    ensures { OnOk result (string_bytes text.new ≡ string_bytes text.old ++ held_links sums.now group) }
{
    for sum in sums {
        write_held_link(text, group, *sum)?;
    }
    Ok(())
}

#[tactic(auto, unfolding(crate::specs::WireSections::Held::held_open))]
// What stands before the links.
fn write_held_open(text: &mut String, group: Group) -> Result<(), AllocError>
    ensures { OnOk result (string_bytes text.new ≡ string_bytes text.old ++ held_open group) }
{
    text.push_str("<p>Sums on this page that ")?;
    write_counter_name(text, group)?;
    text.push_str(" held when they were printed:</p>\n<div>")
}

#[tactic(auto, unfolding(crate::specs::WireSections::Held::held_some))]
// What is said where there are links.
fn write_held_some(text: &mut String, group: Group, links: &str) -> Result<(), AllocError>
    ensures { OnOk result (string_bytes text.new ≡ string_bytes text.old ++ held_some group links.now) }
{
    write_held_open(text, group)?;
    text.push_str(links)?;
    text.push_str("</div>\n")
}

// What is said of the sums that a counter group held, by the links to them.
fn write_held_by(text: &mut String, group: Group, links: &str) -> Result<(), AllocError>
    ensures { OnOk result (string_bytes text.new ≡ string_bytes text.old ++ held_by group links.now) }
{
    if links.is_empty() {
        return Ok(());
    }
    write_held_some(text, group, links)
}

// What is said of the sums that a counter group held.
fn write_group_held(
    alloc: Global,
    text: &mut String,
    sums: &[SumPlace],
    group: Group,
) -> Result<(), AllocError>
    ensures { OnOk result (string_bytes text.new ≡ string_bytes text.old ++ held_by group (held_links sums.now group)) }
{
    let mut links = String::new(alloc);
    write_held_links(&mut links, sums, group)?;
    write_held_by(text, group, &links)
}

// What is said of the sums that the counter of a hub held.
pub(crate) fn write_held(
    alloc: Global,
    text: &mut String,
    sums: &[SumPlace],
    hub: Hub,
) -> Result<(), AllocError>
    ensures { OnOk result (string_bytes text.new ≡ string_bytes text.old ++ held_text sums.now hub) }
{
    match group_of_hub(hub) {
        Some(group) => write_group_held(alloc, text, sums, group),
        None => Ok(()),
    }
}
