//! The origin of a balance latch that is set.

ghost use Rattle.std.specs.Prelude.{◌≡◌, ◌≤◌, ◌<◌, ◌+◌, ◌++◌, IfOk, IfSome, OnOk, length};
ghost use Rattle.card_code.specs.MostCards.{most_cards};
ghost use Rattle.counters.specs.Counters.{width_of};
ghost use Rattle.counters.specs.Numbers.{number};
ghost use Rattle.explain_ledgers.specs.LedgersWords.Running.{HasCycle};
ghost use Rattle.explain_origins.specs.Latches.{IsLatchText, IsNumberTested, IsTestText, test_line};

use crate::changes::PassedCycle;
use card_code::Card;
use counters::group_of_unit;
use explain_ledgers::ledgers::ledger_text::{write_account, write_cycle, write_digits};
use explain_ledgers::ledgers::{Account, machine_in_cycle};
use hubs::setups::Setup;
use std::alloc::{AllocError, Global};
use std::io;
use std::io::Write;

// The number of the group of a place that a cycle of a run tested: as it stood at the end of the cycle.
fn number_tested(
    alloc: Global,
    setup: &Setup,
    cards: &[Card],
    since: PassedCycle,
    place: usize,
) -> Result<u64, AllocError>
    requires few { length cards.now ≤ most_cards }
    requires place { place < 32 }
    requires has { HasCycle setup.now cards.now since.passed }
    ensures { IfOk result (IsNumberTested setup.now cards.now since place) }
{
    let machine = machine_in_cycle(alloc, setup, cards, since.passed)?;
    Ok(machine.groups()[place].turned(since.cycle).value())
}

// How many positions the group of a place has.
fn width_of(place: usize) -> u8
    requires { place < 32 }
    ensures { result ≡ width_of (3 + place) }
{
    group_of_unit(3 + place as u8).width
}

// By which cycle the balance latch of the group of a place is set, and which number it tested.
fn write_test(text: &mut Vec<u8>, place: usize, since: PassedCycle, number: u64) -> io::Result<()>
    requires { place < 32 }
    ensures { OnOk result (text.new.items ≡ text.old.items ++ test_line place since number) }
{
    text.write_all(b"balance latch of ")?;
    write_account(text, Account::One { place })?;
    text.write_all(b" set by ")?;
    write_cycle(text, since.cycle, since.card)?;
    text.write_all(b": it tested ")?;
    write_digits(text, u32::from(width_of(place)), u128::from(number))?;
    text.write_all(b"\n")
}

// What is told of a balance latch that is set, by the cycle that tested it last.
fn test_text(
    alloc: Global,
    setup: &Setup,
    cards: &[Card],
    place: usize,
    since: PassedCycle,
) -> Result<Vec<u8>, AllocError>
    requires few { length cards.now ≤ most_cards }
    requires place { place < 32 }
    requires has { HasCycle setup.now cards.now since.passed }
    ensures { IfOk result (λ text. IsTestText setup.now cards.now place since text.items) }
{
    let number = number_tested(alloc, setup, cards, since, place)?;
    let mut text = Vec::new(alloc);
    match write_test(&mut text, place, since, number) {
        Ok(()) => Ok(text),
        Err(_) => Err(AllocError),
    }
}

// The same, if a cycle tested it.
pub(crate) fn latch_text(
    alloc: Global,
    setup: &Setup,
    cards: &[Card],
    place: usize,
    last: Option<PassedCycle>,
) -> Result<Vec<u8>, AllocError>
    requires few { length cards.now ≤ most_cards }
    requires place { place < 32 }
    requires has { IfSome last (λ since. HasCycle setup.now cards.now since.passed) }
    ensures { IfOk result (λ text. IsLatchText setup.now cards.now place last text.items) }
{
    match last {
        Some(since) => test_text(alloc, setup, cards, place, since),
        None => Ok(Vec::new(alloc)),
    }
}
