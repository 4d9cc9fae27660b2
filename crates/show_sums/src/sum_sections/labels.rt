//! What a sum is called.

ghost use Rattle.std.specs.Prelude.{◌≡◌, ◌++◌, OnOk};
ghost use Rattle.std.specs.String.{string_bytes};
ghost use Rattle.show_sums.specs.SumSections.Labels.{label_text, sum_name_text};

use crate::sum_sections::sums::PageSum;
use explain_wheel_ledgers::TitledAccount;
use hubs::Group;
use show_drawings::markup::push_escaped;
use show_links::sum_places::write_counter_name;
use std::alloc::AllocError;

// The name of a sum: that of its amount, or else of its counter group.
fn write_sum_name_text(
    text: &mut String,
    total: &Option<TitledAccount>,
    group: Group,
) -> Result<(), AllocError>
    ensures { OnOk result (string_bytes text.new ≡ string_bytes text.old ++ sum_name_text total.now group) }
{
    match total {
        Some(total) => push_escaped(text, total.title.name.as_bytes()),
        None => write_counter_name(text, group),
    }
}

#[tactic(auto, unfolding(crate::specs::SumSections::Labels::label_text))]
// What a sum is called: its name, and the figure that was printed.
pub(crate) fn write_label(text: &mut String, sum: &PageSum) -> Result<(), AllocError>
    ensures { OnOk result (string_bytes text.new ≡ string_bytes text.old ++ label_text sum.now) }
{
    write_sum_name_text(text, &sum.total, sum.at.group)?;
    text.push_str(" ")?;
    push_escaped(text, sum.figure.as_slice())
}
