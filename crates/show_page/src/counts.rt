//! How many things there are, as people say it.

ghost use Rattle.std.specs.Prelude.{◌≡◌, ◌++◌, OnOk};
ghost use Rattle.std.specs.String.{string_bytes};
ghost use Rattle.show_page.specs.Counts.{counted, how_many, plural};

use chart_numerals::push_number;
use std::alloc::AllocError;

// How many.
fn write_how_many(text: &mut String, number: usize) -> Result<(), AllocError>
    ensures { OnOk result (string_bytes text.new ≡ string_bytes text.old ++ how_many number) }
{
    if number == 0 {
        text.push_str("no")
    } else {
        push_number(text, number)
    }
}

// What stands behind the word for things that are not one.
fn write_plural(text: &mut String, number: usize) -> Result<(), AllocError>
    ensures { OnOk result (string_bytes text.new ≡ string_bytes text.old ++ plural number) }
{
    if number == 1 {
        Ok(())
    } else {
        text.push_str("s")
    }
}

#[tactic(auto, unfolding(crate::specs::Counts::counted))]
// So many things, by the word for one of them.
pub(crate) fn write_counted(text: &mut String, number: usize, thing: &str) -> Result<(), AllocError>
    ensures { OnOk result (string_bytes text.new ≡ string_bytes text.old ++ counted number thing.now) }
{
    write_how_many(text, number)?;
    text.push_str(" ")?;
    text.push_str(thing)?;
    write_plural(text, number)
}
