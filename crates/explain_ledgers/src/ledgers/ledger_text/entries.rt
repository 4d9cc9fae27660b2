//! The lines of the entries of a ledger.

ghost use Rattle.std.specs.Prelude.{◌≡◌, ◌≤◌, ◌<◌, ◌+◌, ◌++◌, OnOk, option_map};
ghost use Rattle.counters.specs.Counters.{width_of};
ghost use Rattle.explain_ledgers.specs.LedgersWords.Accounts.{IsAccount, positions_of};
ghost use Rattle.explain_ledgers.specs.LedgersWords.LedgerText.Entries.{after_card_text, carries_text, carries_word, carry_text, change_text, control_text, count_text, decimals_in, entries_word, entry_line, entry_lines, gap_line, gap_lines, source_text, sourced_text, sum_text, titled_text, together_text, total_text, words_text};
ghost use Rattle.explain_ledgers.specs.LedgersWords.LedgerText.Titles.{words_of};

use crate::ledgers::ledger_text::amounts::{write_amount, write_balance, write_digits};
use crate::ledgers::ledger_text::names::{write_cycle, write_hubs};
use crate::ledgers::ledger_text::title::Title;
use crate::ledgers::{Account, Change, Entry, LeftOut};
use counters::group_of_unit;
use net::Cycle;
use std::io;
use std::io::Write;

// What came to the number.
fn write_change(text: &mut Vec<u8>, width: u32, change: Change, entered: u64) -> io::Result<()>
    ensures { OnOk result (text.new.items ≡ text.old.items ++ change_text width change entered) }
{
    match change {
        Change::Plus => {
            text.write_all(b" +")?;
            write_digits(text, width, u128::from(entered))
        }
        Change::Minus => {
            text.write_all(b" -")?;
            write_digits(text, width, u128::from(entered))
        }
        Change::Turned => text.write_all(b" turned"),
        Change::Carry => Ok(()),
        Change::Apart => text.write_all(b" apart"),
    }
}

/// Puts ` carry` behind a text if a carry came in, else nothing. Fails only if no memory is left.
pub fn write_carry(text: &mut Vec<u8>, carry: bool) -> io::Result<()>
    ensures { OnOk result (text.new.items ≡ text.old.items ++ carry_text carry) }
{
    if carry {
        text.write_all(b" carry")?;
    }
    Ok(())
}

/// Puts behind a text the sum of an entry, with so many digits for each number: the number before, what came to it, and the number after.
/// Fails only if no memory is left.
pub fn write_sum(text: &mut Vec<u8>, width: u32, entry: &Entry) -> io::Result<()>
    ensures { OnOk result (text.new.items ≡ text.old.items ++ sum_text width entry.now) }
{
    write_digits(text, width, u128::from(entry.before))?;
    write_change(text, width, entry.change, entry.entered)?;
    write_carry(text, entry.carry)?;
    text.write_all(b" = ")?;
    write_digits(text, width, u128::from(entry.after))
}

/// Puts behind a text from where an amount of this name comes: from its card, or from the total of a level. Fails only if no memory is left.
pub fn write_source(text: &mut Vec<u8>, name: &[u8], cycle: Cycle, card: u32) -> io::Result<()>
    ensures { OnOk result (text.new.items ≡ text.old.items ++ source_text name.now cycle card) }
{
    match cycle {
        Cycle::RunIn | Cycle::Head(_) => text.write_all(name),
        Cycle::Card => {
            text.write_all(name)?;
            write!(text, " of card {card}")
        }
        Cycle::Prog(level, _) => write_total(text, level.number(), card),
    }
}

// The total of a level.
fn write_total(text: &mut Vec<u8>, level: u8, card: u32) -> io::Result<()>
    ensures { OnOk result (text.new.items ≡ text.old.items ++ total_text level card) }
{
    text.write_all(b"total of level ")?;
    write!(text, "{level}")?;
    write_after_card(text, card)
}

// Behind which card it was.
fn write_after_card(text: &mut Vec<u8>, card: u32) -> io::Result<()>
    ensures { OnOk result (text.new.items ≡ text.old.items ++ after_card_text card) }
{
    write!(text, " after card {card}")
}

// An amount that was added or subtracted, and from where it comes.
fn write_sourced(text: &mut Vec<u8>, title: &Title, entry: &Entry) -> io::Result<()>
    ensures { OnOk result (text.new.items ≡ text.old.items ++ sourced_text (words_of title.now) entry.now) }
{
    write_amount(text, u32::from(title.decimals), u128::from(entry.entered))?;
    text.write_all(b"   ")?;
    write_source(text, title.name.as_bytes(), entry.cycle, entry.card)
}

// What a chart has to say of an entry.
fn write_titled(text: &mut Vec<u8>, title: &Title, entry: &Entry) -> io::Result<()>
    ensures { OnOk result (text.new.items ≡ text.old.items ++ titled_text (words_of title.now) entry.now.change entry.now) }
{
    match entry.change {
        Change::Plus => {
            text.write_all(b"   ")?;
            write_sourced(text, title, entry)
        }
        Change::Minus => {
            text.write_all(b"   -")?;
            write_sourced(text, title, entry)
        }
        Change::Turned | Change::Carry | Change::Apart => Ok(()),
    }
}

// The hubs that were impulsed so that the number changed.
fn write_control(text: &mut Vec<u8>, account: Account, change: Change) -> io::Result<()>
    requires { IsAccount account }
    ensures { OnOk result (text.new.items ≡ text.old.items ++ control_text account change) }
{
    match change {
        Change::Plus => {
            text.write_all(b"   ")?;
            write_hubs(text, b"PL.", account)
        }
        Change::Minus => {
            text.write_all(b"   ")?;
            write_hubs(text, b"MI.", account)
        }
        Change::Turned => {
            text.write_all(b"   ")?;
            write_hubs(text, b"RO.", account)?;
            text.write_all(b" ")?;
            write_hubs(text, b"MI.", account)
        }
        Change::Carry | Change::Apart => Ok(()),
    }
}

// What is said behind the sum of an entry.
fn write_words(
    text: &mut Vec<u8>,
    title: &Option<Title>,
    account: Account,
    entry: &Entry,
) -> io::Result<()>
    requires { IsAccount account }
    ensures { OnOk result (text.new.items ≡ text.old.items ++ words_text (option_map words_of title.now) account entry.now) }
{
    match title {
        Some(title) => write_titled(text, title, entry),
        None => write_control(text, account, entry.change),
    }
}

/// How many positions the number of an account has.
pub fn positions_of(account: Account) -> u32
    requires { IsAccount account }
    ensures value { result ≡ positions_of account }
    ensures few { result ≤ 16 }
{
    match account {
        Account::One { place } => width_at(place),
        Account::Coupled { upper, lower } => width_at(upper) + width_at(lower),
    }
}

// How many positions the group of a place has.
fn width_at(place: usize) -> u32
    requires { place < 32 }
    ensures value { result ≡ width_of (3 + place) }
    ensures few { result ≤ 8 }
{
    u32::from(group_of_unit(3 + place as u8).width)
}

/// Puts the line of an entry of an account's ledger behind a text, with what a chart knows of the ledger. Fails only if no memory is left.
pub fn write_entry(
    text: &mut Vec<u8>,
    title: &Option<Title>,
    account: Account,
    entry: &Entry,
) -> io::Result<()>
    requires { IsAccount account }
    ensures { OnOk result (text.new.items ≡ text.old.items ++ entry_line (option_map words_of title.now) account entry.now) }
{
    text.write_all(b"  ")?;
    write_cycle(text, entry.cycle, entry.card)?;
    text.write_all(b": ")?;
    write_sum(text, positions_of(account), entry)?;
    write_words(text, title, account, entry)?;
    text.write_all(b"\n")
}

// The lines of some entries.
pub(crate) fn write_entries(
    text: &mut Vec<u8>,
    title: &Option<Title>,
    account: Account,
    entries: &[Entry],
) -> io::Result<()>
    requires { IsAccount account }
    ensures { OnOk result (text.new.items ≡ text.old.items ++ entry_lines (option_map words_of title.now) account entries.now) }
{
    for entry in entries {
        write_entry(text, title, account, entry)?;
    }
    Ok(())
}

// The decimals of the amounts of a ledger.
fn decimals_in(title: &Option<Title>) -> u32
    ensures { result ≡ decimals_in (option_map words_of title.now) }
{
    match title {
        Some(title) => u32::from(title.decimals),
        None => 0,
    }
}

/// Puts behind a text the line in place of the entries that are left out. Fails only if no memory is left.
pub fn write_gap(text: &mut Vec<u8>, title: &Option<Title>, left_out: LeftOut) -> io::Result<()>
    ensures { OnOk result (text.new.items ≡ text.old.items ++ gap_line (option_map words_of title.now) left_out) }
{
    write_count(text, left_out.count)?;
    write_together(text, decimals_in(title), left_out)
}

// How many entries are left out.
fn write_count(text: &mut Vec<u8>, count: u64) -> io::Result<()>
    ensures { OnOk result (text.new.items ≡ text.old.items ++ count_text count) }
{
    write!(text, "  {count}")?;
    text.write_all(entries_word(count))
}

// One entry, or several.
fn entries_word(count: u64) -> &'static [u8]
    ensures { result.now ≡ entries_word count }
{
    if count == 1 {
        b" more entry"
    } else {
        b" more entries"
    }
}

// One carry, or several.
fn carries_word(carries: u64) -> &'static [u8]
    ensures { result.now ≡ carries_word carries }
{
    if carries == 1 { b" carry" } else { b" carries" }
}

// How many carries came in in them, if one did.
fn write_carries(text: &mut Vec<u8>, carries: u64) -> io::Result<()>
    ensures { OnOk result (text.new.items ≡ text.old.items ++ carries_text carries) }
{
    if carries == 0 {
        return Ok(());
    }
    write!(text, ", and {carries}")?;
    text.write_all(carries_word(carries))
}

// What they come to.
fn write_together(text: &mut Vec<u8>, decimals: u32, left_out: LeftOut) -> io::Result<()>
    ensures { OnOk result (text.new.items ≡ text.old.items ++ together_text decimals left_out) }
{
    text.write_all(b", together ")?;
    write_balance(text, decimals, left_out.plus, left_out.minus)?;
    write_carries(text, left_out.carries)?;
    text.write_all(b"\n")
}

/// Puts behind a text the line in place of the entries that a long ledger leaves out, if it leaves some out. Fails only if no memory is left.
pub fn write_gaps(text: &mut Vec<u8>, title: &Option<Title>, left_out: LeftOut) -> io::Result<()>
    ensures { OnOk result (text.new.items ≡ text.old.items ++ gap_lines (option_map words_of title.now) left_out) }
{
    if left_out.count == 0 {
        return Ok(());
    }
    write_gap(text, title, left_out)
}
