//! An entry of the guide as a text.

ghost use Rattle.std.specs.Prelude.{◌≡◌, ◌++◌, IfOk, OnOk};
ghost use Rattle.std.specs.String.{string_bytes};
ghost use Rattle.fault_lines.specs.FaultGuide.GuideTexts.EntryText.{entry_text, example_line, entry_heading, named_line};

use crate::fault_guide::FaultEntry;
use chart_numerals::push_numbered;
use std::alloc::{AllocError, Global};

// Adds one thing that an entry says: its name, a colon and the words.
fn add_named(text: &mut String, name: &str, words: &str) -> Result<(), AllocError>
    ensures { OnOk result (string_bytes text.new ≡ string_bytes text.old ++ named_line name.now words.now) }
{
    write!(text, "{name}: {words}\n")
}

// Adds the example, where there is one.
fn add_example(text: &mut String, example: &str) -> Result<(), AllocError>
    ensures { OnOk result (string_bytes text.new ≡ string_bytes text.old ++ example_line example.now) }
{
    if example.is_empty() {
        Ok(())
    } else {
        add_named(text, "example", example)
    }
}

// Adds the line with the number and the name of a fault.
fn add_heading(text: &mut String, number: u8, name: &str) -> Result<(), AllocError>
    ensures { OnOk result (string_bytes text.new ≡ string_bytes text.old ++ entry_heading number name.now) }
{
    push_numbered(text, "fault ", number)?;
    write!(text, " {name}\n")
}

// Adds the lines of an entry.
fn add_entry(text: &mut String, entry: &FaultEntry) -> Result<(), AllocError>
    ensures { OnOk result (string_bytes text.new ≡ string_bytes text.old ++ entry_text entry.now) }
{
    add_heading(text, entry.number, entry.name)?;
    add_named(text, "cause", entry.cause)?;
    add_named(text, "cure", entry.cure)?;
    add_example(text, entry.example)
}

/// The text of an entry: a line with the number and the name of the fault, a line each for its cause and its cure, and its example, which not
/// every fault has, in one line or more.
///
/// # Errors
///
/// Where a growth was refused.
pub fn entry_text(alloc: Global, entry: &FaultEntry) -> Result<String, AllocError>
    ensures { IfOk result (λ text. string_bytes text ≡ entry_text entry.now) }
{
    let mut text = String::new(alloc);
    add_entry(&mut text, entry)?;
    Ok(text)
}
