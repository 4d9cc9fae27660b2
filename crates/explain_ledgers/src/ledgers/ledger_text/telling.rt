//! The text of a ledger.

ghost use Rattle.std.specs.Prelude.{◌≡◌, ◌++◌, OnOk, option_map};
ghost use Rattle.explain_ledgers.specs.LedgersWords.Accounts.{IsAccount};
ghost use Rattle.explain_ledgers.specs.LedgersWords.LedgerText.Tellings.{heading_line, ledger_text, no_ledger_text, summary_lines};
ghost use Rattle.explain_ledgers.specs.LedgersWords.LedgerText.Titles.{words_of};

use crate::ledgers::ledger_text::entries::{write_entries, write_gaps};
use crate::ledgers::ledger_text::names::{write_account, write_cycle};
use crate::ledgers::ledger_text::title::Title;
use crate::ledgers::{Account, Ledger};
use net::Cycle;
use std::io;
use std::io::Write;

/// Puts behind a text whose ledger it is, and before which cycle it is told. Fails only if no memory is left.
pub fn write_heading(
    text: &mut Vec<u8>,
    account: Account,
    cycle: Cycle,
    card: u32,
) -> io::Result<()>
    requires { IsAccount account }
    ensures { OnOk result (text.new.items ≡ text.old.items ++ heading_line account cycle card) }
{
    text.write_all(b"ledger of ")?;
    write_account(text, account)?;
    text.write_all(b" before ")?;
    write_cycle(text, cycle, card)?;
    text.write_all(b"\n")
}

// The lines of the entries.
fn write_summary(text: &mut Vec<u8>, title: &Option<Title>, ledger: &Ledger) -> io::Result<()>
    requires { IsAccount ledger.now.account }
    ensures { OnOk result (text.new.items ≡ text.old.items ++ summary_lines (option_map words_of title.now) ledger.now) }
{
    let account = ledger.account();
    write_entries(text, title, account, ledger.first())?;
    write_gaps(text, title, ledger.left_out())?;
    write_entries(text, title, account, ledger.last())
}

/// Puts the text of a ledger behind a text. The ledger is told before a cycle, by the number of the card that was read last in it; a title is
/// what a chart knows of it. Fails only if no memory is left.
pub fn write_ledger(
    text: &mut Vec<u8>,
    ledger: &Ledger,
    cycle: Cycle,
    card: u32,
    title: &Option<Title>,
) -> io::Result<()>
    requires { IsAccount ledger.now.account }
    ensures { OnOk result (text.new.items ≡ text.old.items ++ ledger_text ledger.now cycle card (option_map words_of title.now)) }
{
    write_heading(text, ledger.account(), cycle, card)?;
    write_summary(text, title, ledger)
}

/// Puts behind a text that there is no ledger to tell. Fails only if no memory is left.
pub fn write_no_ledger(text: &mut Vec<u8>) -> io::Result<()>
    ensures { OnOk result (text.new.items ≡ text.old.items ++ no_ledger_text) }
{
    text.write_all(b"no ledger: no way to this wheel begins at a counter group\n")
}
