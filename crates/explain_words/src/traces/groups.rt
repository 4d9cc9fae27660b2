//! What is told of counter groups.

ghost use Rattle.std.specs.Prelude.{◌≡◌, ◌++◌, OnOk, codes, reverse};
ghost use Rattle.std.specs.Str.{bytes_eq};
ghost use Rattle.counters.specs.Counters.{counter_ended};
ghost use Rattle.explain_words.specs.TracesWords.Lines.{groups_told};
ghost use Rattle.explain_words.specs.TracesWords.TracedUnits.{before_text, digits_text, entered_text, group_told, is_added, is_asked, is_turned, read_text, sum_text, test_text, turned_text, wheels_text};

use chart_lines::tokens::is;
use chart_numerals::write_number;
use counters::{Controls, Group};
use explain_ledgers::ledgers::ledger_text::{write_carry, write_group_name};
use net::Cycle;
use std::io;
use std::io::Write;

#[tactic(auto, using(crate::proofs::TracesWords::Pieces::digits_none, crate::proofs::TracesWords::Pieces::digits_more))]
// Digits from the top down, of which the units come first.
fn write_digits(text: &mut Vec<u8>, digits: &[u8]) -> io::Result<()>
    ensures { OnOk result (text.new.items ≡ text.old.items ++ digits_text (reverse digits.now)) }
{
    for place in (0..digits.len()).rev() {
        write_number(text, digits[place])?;
    }
    Ok(())
}

// The digits at which a group stands.
fn write_standing(text: &mut Vec<u8>, group: &Group) -> io::Result<()>
    ensures { OnOk result (text.new.items ≡ text.old.items ++ digits_text group.now.digits) }
{
    write_digits(text, group.digits().as_slice())
}

// The digits that were entered into a group.
fn write_taken(text: &mut Vec<u8>, group: &Group) -> io::Result<()>
    ensures { OnOk result (text.new.items ≡ text.old.items ++ digits_text group.now.entered) }
{
    write_digits(text, group.entered().as_slice())
}

// Whether a group is asked something.
fn is_asked(controls: Controls, carry: bool) -> bool
    ensures { result ≡ is_asked controls carry }
{
    controls.plus || controls.minus || controls.read_out || controls.test || carry
}

// Whether something is added to a group.
fn is_added(controls: Controls, carry: bool) -> bool
    ensures { result ≡ is_added controls carry }
{
    controls.plus || controls.minus || carry
}

#[tactic(auto, using(crate::proofs::TracesWords::Pieces::same_reversed))]
// Whether what was entered into a group is the number at which it stands.
fn takes_its_own(group: &Group) -> bool
    ensures { result ≡ bytes_eq group.now.entered group.now.digits }
{
    is(group.entered().as_slice(), group.digits().as_slice())
}

// Whether a group subtracts what it reads out.
fn is_turned(group: &Group) -> bool
    ensures { result ≡ is_turned group.now }
{
    let controls = group.controls();
    controls.read_out && controls.minus && takes_its_own(group)
}

// The number before, where the group is not read out.
fn write_before(text: &mut Vec<u8>, group: &Group) -> io::Result<()>
    ensures { OnOk result (text.new.items ≡ text.old.items ++ before_text group.now.controls group.now.digits) }
{
    if group.controls().read_out {
        return Ok(());
    }
    text.write_all(b" ")?;
    write_standing(text, group)
}

// What was entered, with its sign.
fn write_entered(text: &mut Vec<u8>, group: &Group) -> io::Result<()>
    ensures { OnOk result (text.new.items ≡ text.old.items ++ entered_text group.now.controls group.now.entered) }
{
    let controls = group.controls();
    if controls.minus {
        text.write_all(b" -")?;
        write_taken(text, group)
    } else if controls.plus {
        text.write_all(b" +")?;
        write_taken(text, group)
    } else {
        Ok(())
    }
}

// The number behind.
fn write_behind(text: &mut Vec<u8>, behind: &Group) -> io::Result<()>
    ensures { OnOk result (text.new.items ≡ text.old.items ++ (codes " = " ++ digits_text behind.now.digits)) }
{
    text.write_all(b" = ")?;
    write_standing(text, behind)
}

// The number before, what comes to it, and the number behind.
fn write_sum(text: &mut Vec<u8>, group: &Group, behind: &Group) -> io::Result<()>
    ensures { OnOk result (text.new.items ≡ text.old.items ++ sum_text group.now behind.now) }
{
    if !is_added(group.controls(), group.carry()) {
        return Ok(());
    }
    write_before(text, group)?;
    write_entered(text, group)?;
    write_carry(text, group.carry())?;
    write_behind(text, behind)
}

// What is read out.
fn write_read(text: &mut Vec<u8>, group: &Group) -> io::Result<()>
    ensures { OnOk result (text.new.items ≡ text.old.items ++ read_text group.now) }
{
    if !group.controls().read_out {
        return Ok(());
    }
    text.write_all(b" read out ")?;
    write_standing(text, group)?;
    text.write_all(b", reset")
}

// A group that is turned.
fn write_turned(text: &mut Vec<u8>, group: &Group, behind: &Group) -> io::Result<()>
    ensures { OnOk result (text.new.items ≡ text.old.items ++ turned_text group.now behind.now) }
{
    text.write_all(b" ")?;
    write_standing(text, group)?;
    text.write_all(b" turned: ")?;
    write_standing(text, behind)
}

// How the wheels of a group turn.
fn write_wheels(text: &mut Vec<u8>, group: &Group, behind: &Group) -> io::Result<()>
    ensures { OnOk result (text.new.items ≡ text.old.items ++ wheels_text group.now behind.now) }
{
    if is_turned(group) {
        return write_turned(text, group, behind);
    }
    write_read(text, group)?;
    write_sum(text, group, behind)
}

// What balance test makes of the latch.
fn write_test(text: &mut Vec<u8>, group: &Group, behind: &Group) -> io::Result<()>
    ensures { OnOk result (text.new.items ≡ text.old.items ++ test_text group.now behind.now) }
{
    if !group.controls().test {
        return Ok(());
    }
    text.write_all(b" test: balance latch ")?;
    if behind.latch() {
        text.write_all(b"set")
    } else {
        text.write_all(b"reset")
    }
}

// A group, where it is asked something.
fn write_group(text: &mut Vec<u8>, group: &Group, behind: &Group) -> io::Result<()>
    ensures { OnOk result (text.new.items ≡ text.old.items ++ group_told group.now behind.now) }
{
    if !is_asked(group.controls(), group.carry()) {
        return Ok(());
    }
    text.write_all(b"   ")?;
    write_group_name(text, group.name())?;
    write_wheels(text, group, behind)?;
    write_test(text, group, behind)
}

// A group in a cycle, behind its points.
fn write_group_in(text: &mut Vec<u8>, cycle: Cycle, group: &Group) -> io::Result<()>
    ensures { OnOk result (text.new.items ≡ text.old.items ++ group_told group.now (counter_ended group.now cycle)) }
{
    let behind = group.turned(cycle);
    write_group(text, group, &behind)
}

#[tactic(auto, using(crate::proofs::TracesWords::Pieces::piece_more))]
// The groups that are asked something in a cycle, behind its points.
pub(crate) fn write_groups(text: &mut Vec<u8>, cycle: Cycle, groups: &[Group]) -> io::Result<()>
    ensures { OnOk result (text.new.items ≡ text.old.items ++ groups_told cycle groups.now) }
{
    for group in groups {
        write_group_in(text, cycle, group)?;
    }
    Ok(())
}
