//! How a ledger names cycles and counter groups.

ghost use Rattle.std.specs.Prelude.{◌≡◌, ◌<◌, ◌++◌, OnOk};
ghost use Rattle.hubs.specs.HubText.{group_text};
ghost use Rattle.explain_ledgers.specs.LedgersWords.Accounts.{IsAccount};
ghost use Rattle.explain_ledgers.specs.LedgersWords.LedgerText.Names.{account_text, after_text, cycle_name, cycle_text, hubs_text, place_text};

use crate::ledgers::Account;
use counters::group_of_unit;
use hubs::Group;
use net::Cycle;
use std::io;
use std::io::Write;

/// Puts behind a text the name of a cycle: `RunIn`; `Card` and the number of its card; `Prog`, its level and which of its three cycles it is;
/// `Head` and its number. Fails only if no memory is left.
pub fn write_cycle_name(text: &mut Vec<u8>, cycle: Cycle, card: u32) -> io::Result<()>
    ensures { OnOk result (text.new.items ≡ text.old.items ++ cycle_name cycle card) }
{
    match cycle {
        Cycle::RunIn => text.write_all(b"RunIn"),
        Cycle::Card => write!(text, "Card {card}"),
        Cycle::Prog(level, ordinal) => {
            let level = level.number();
            let ordinal = ordinal.number();
            write!(text, "Prog {level} {ordinal}")
        }
        Cycle::Head(heading) => {
            let heading = heading.number();
            write!(text, "Head {heading}")
        }
    }
}

// The card that was read last.
fn write_after(text: &mut Vec<u8>, cycle: Cycle, card: u32) -> io::Result<()>
    ensures { OnOk result (text.new.items ≡ text.old.items ++ after_text cycle card) }
{
    match cycle {
        Cycle::RunIn | Cycle::Card => Ok(()),
        Cycle::Prog(_, _) | Cycle::Head(_) => write!(text, " after card {card}"),
    }
}

/// Puts behind a text which cycle it is: of a card cycle the number of its card, of any other that of the card that was read last. Fails
/// only if no memory is left.
pub fn write_cycle(text: &mut Vec<u8>, cycle: Cycle, card: u32) -> io::Result<()>
    ensures { OnOk result (text.new.items ≡ text.old.items ++ cycle_text cycle card) }
{
    write_cycle_name(text, cycle, card)?;
    write_after(text, cycle, card)
}

/// Puts behind a text the width and the number of a counter group, as hubs name it: `8.1`. Fails only if no memory is left.
pub fn write_group_name(text: &mut Vec<u8>, group: Group) -> io::Result<()>
    ensures { OnOk result (text.new.items ≡ text.old.items ++ group_text group) }
{
    let width = group.width;
    let number = group.number;
    write!(text, "{width}.{number}")
}

// The group of a place.
fn write_place(text: &mut Vec<u8>, place: usize) -> io::Result<()>
    requires { place < 32 }
    ensures { OnOk result (text.new.items ≡ text.old.items ++ place_text place) }
{
    write_group_name(text, group_of_unit(3 + place as u8))
}

/// Puts behind a text the counter groups of an account, that with the units last. Fails only if no memory is left.
pub fn write_account(text: &mut Vec<u8>, account: Account) -> io::Result<()>
    requires { IsAccount account }
    ensures { OnOk result (text.new.items ≡ text.old.items ++ account_text account) }
{
    match account {
        Account::One { place } => write_place(text, place),
        Account::Coupled { upper, lower } => {
            write_place(text, upper)?;
            text.write_all(b" and ")?;
            write_place(text, lower)
        }
    }
}

// The hubs of a kind of the groups of an account.
pub(crate) fn write_hubs(text: &mut Vec<u8>, letters: &[u8], account: Account) -> io::Result<()>
    requires { IsAccount account }
    ensures { OnOk result (text.new.items ≡ text.old.items ++ hubs_text letters.now account) }
{
    match account {
        Account::One { place } => {
            text.write_all(letters)?;
            write_place(text, place)
        }
        Account::Coupled { upper, lower } => {
            text.write_all(letters)?;
            write_place(text, upper)?;
            text.write_all(b" ")?;
            text.write_all(letters)?;
            write_place(text, lower)
        }
    }
}
