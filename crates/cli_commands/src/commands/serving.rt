//! One command, over any reader and writers.

ghost use Rattle.std.specs.Prelude.{◌≡◌, ◌≢◌, ◌≤◌, ◌⊎◌, ℕ, List, Option, IfErr, OnOk};
ghost use Rattle.fault_lines.specs.ProgramIo.Commands.{IsNoCommand, word_of};
ghost use Rattle.cli_commands.specs.CommandsWords.Answers.{HasWiring};
ghost use Rattle.cli_commands.specs.CommandsWords.CommandEnds.{IsDone, IsRefused};
ghost use Rattle.fault_lines.specs.ProgramIo.Fronts.{WritesFront};
ghost use Rattle.fault_lines.specs.ProgramIo.Stops.{Stops};
ghost use Rattle.cli_commands.specs.CommandsWords.Streamed.{HasFailed, HasRefused, HasServed};
ghost use Rattle.fault_lines.specs.FaultsWords.Lines.{IsTold};
ghost use Rattle.fault_lines.specs.FaultsWords.Status.{status_of};

use crate::commands::answers::{check, upgraded, wiring_chart};
use crate::commands::replaying::print_replay;
use crate::commands::running::print_run;
use fault_lines::faults::{Ending, Fault, tell};
use fault_lines::program_io::{Command, put, read_whole};
use std::alloc::Global;
use std::io::{Read, Write};
use wire_chart::read_setup;

// Prints that a chart compiles. No deck is read, so the clauses say it for any.
fn serve_check<'a, W: Write>(alloc: Global, text: &[u8], out: &mut W) -> Result<(), Fault<'a>>
    ensures done { OnOk result ((deck : Option (List ℕ))
        → IsDone Command.Check text.now deck (W.contents out.old) (W.contents out.new)) }
    ensures refused { IfErr result (λ told. status_of told ≡ 3
        → ((deck : Option (List ℕ)) → IsRefused Command.Check text.now deck told) × (out.new ≡ out.old)) }
    ensures stopped { IfErr result (λ told. (unreadable : Fault) → Stops told unreadable (out.new ≡ out.old)) }
    ensures front { (out.new ≡ out.old) ⊎ ((deck : Option (List ℕ))
        → WritesFront (IsDone Command.Check text.now deck) (W.contents out.old) (W.contents out.new)) }
{
    check(alloc, text)?;
    put(out, b"ok\n")
}

// Prints the wiring chart of a chart, for any deck as well.
fn serve_wire<'a, W: Write>(alloc: Global, text: &[u8], out: &mut W) -> Result<(), Fault<'a>>
    ensures done { OnOk result ((deck : Option (List ℕ))
        → IsDone Command.Wire text.now deck (W.contents out.old) (W.contents out.new)) }
    ensures refused { IfErr result (λ told. status_of told ≡ 3
        → ((deck : Option (List ℕ)) → IsRefused Command.Wire text.now deck told) × (out.new ≡ out.old)) }
    ensures stopped { IfErr result (λ told. (unreadable : Fault) → Stops told unreadable (out.new ≡ out.old)) }
    ensures front { (out.new ≡ out.old) ⊎ ((deck : Option (List ℕ))
        → WritesFront (IsDone Command.Wire text.now deck) (W.contents out.old) (W.contents out.new)) }
{
    let written = wiring_chart(alloc, text)?;
    put(out, written.as_bytes())
}

// Prints a wiring chart in version 2, for any deck as well.
fn serve_upgrade<'a, W: Write>(alloc: Global, text: &[u8], out: &mut W) -> Result<(), Fault<'a>>
    ensures done { OnOk result ((deck : Option (List ℕ))
        → IsDone Command.Upgrade text.now deck (W.contents out.old) (W.contents out.new)) }
    ensures refused { IfErr result (λ told. status_of told ≡ 3
        → ((deck : Option (List ℕ)) → IsRefused Command.Upgrade text.now deck told) × (out.new ≡ out.old)) }
    ensures stopped { IfErr result (λ told. (unreadable : Fault) → Stops told unreadable (out.new ≡ out.old)) }
    ensures front { (out.new ≡ out.old) ⊎ ((deck : Option (List ℕ))
        → WritesFront (IsDone Command.Upgrade text.now deck) (W.contents out.old) (W.contents out.new)) }
{
    let rewritten = upgraded(alloc, text)?;
    put(out, rewritten.as_bytes())
}

// Prints the pages of a wiring chart and a deck. A fault of the wiring chart is told before a deck that can't be read.
fn serve_replay<'a, R: Read + Drop, W: Write>(
    alloc: Global,
    text: &[u8],
    path: &'a str,
    deck: R,
    out: &mut W,
) -> Result<(), Fault<'a>>
    ensures done { OnOk result (IsDone Command.Replay text.now (R.remaining deck) (W.contents out.old) (W.contents out.new)) }
    ensures refused { IfErr result (λ told. status_of told ≡ 3
        → IsRefused Command.Replay text.now (R.remaining deck) told × (out.new ≡ out.old)) }
    ensures unread { IfErr result (λ told. told ≡ Fault.File path.entry → HasWiring text.now) }
    ensures stopped { IfErr result (λ told. Stops told (Fault.File path.entry) (out.new ≡ out.old)) }
    ensures front { (out.new ≡ out.old)
        ⊎ WritesFront (IsDone Command.Replay text.now (R.remaining deck)) (W.contents out.old) (W.contents out.new) }
{
    match read_whole(alloc, deck, path) {
        Ok(bytes) => print_replay(alloc, text, bytes.as_slice(), out),
        Err(unread) => {
            read_setup(alloc, text)?;
            Err(unread)
        }
    }
}

// Does a command: its answer is printed, or why there is none is the fault.
fn carry_out<'a, R: Read + Drop, W: Write>(
    alloc: Global,
    command: Command,
    text: &[u8],
    path: &'a str,
    mut deck: R,
    out: &mut W,
) -> Result<(), Fault<'a>>
    ensures done { OnOk result (HasServed command text.now (R.remaining deck) (W.contents out.old) (W.contents out.new)) }
    ensures refused { IfErr result (λ told. status_of told ≡ 3
        → HasRefused command text.now (R.remaining deck) (W.contents out.old) (W.contents out.new) told (out.new ≡ out.old)) }
    ensures failed { IfErr result (λ told.
        HasFailed command text.now (R.remaining deck) (W.contents out.old) (W.contents out.new) told (Fault.File path.entry) (out.new ≡ out.old)) }
    ensures front { command ≢ Command.Run → (out.new ≡ out.old)
        ⊎ WritesFront (IsDone command text.now (R.remaining deck)) (W.contents out.old) (W.contents out.new) }
{
    match command {
        Command::Check => serve_check(alloc, text, out),
        Command::Wire => serve_wire(alloc, text, out),
        Command::Upgrade => serve_upgrade(alloc, text, out),
        Command::Run => print_run(alloc, text, &mut deck, out),
        Command::Replay => serve_replay(alloc, text, path, deck, out),
    }
}

/// Does one command, and tells on one line of `faults` why it was not carried out.
///
/// The command is `Check`, which compiles the chart `text` and prints `ok`, `Wire`, which prints its wiring chart, `Run`, which does as
/// [`crate::commands::run_to_end`] says, `Replay`, which prints the pages that the machine wired as the wiring chart `text` says prints of the deck,
/// whatever is on its cards, or `Upgrade`, which prints the wiring chart in version 2. `path` names the deck in what `Replay` tells of one
/// that can't be read, after a fault of the wiring chart. The statuses are 0 done, and then nothing is told, 3 refused input, 4 file
/// fault, 5 memory.
///
/// Nothing is printed by status 3, but by a run whose chart compiles, nor if the deck of a replay can't be read. If the output can't be
/// written or memory runs out, the front of the answer may have been.
pub fn serve_command<R: Read + Drop, W: Write, V: Write>(
    alloc: Global,
    command: Command,
    text: &[u8],
    path: &str,
    deck: R,
    out: &mut W,
    faults: &mut V,
) -> Ending
    ensures done { result.status ≡ 0 → HasServed command text.now (R.remaining deck) (W.contents out.old) (W.contents out.new)
        × (faults.new ≡ faults.old) }
    ensures refused { result.status ≡ 3 → (told : Fault)
        × HasRefused command text.now (R.remaining deck) (W.contents out.old) (W.contents out.new) told (out.new ≡ out.old)
        × IsTold told result.is_told (V.contents faults.old) (V.contents faults.new) }
    ensures device { result.status ≡ 4
        → ((out.new ≡ out.old) × (command ≡ Command.Replay) × HasWiring text.now
        × IsTold (Fault.File path.entry) result.is_told (V.contents faults.old) (V.contents faults.new))
        ⊎ IsTold Fault.Write result.is_told (V.contents faults.old) (V.contents faults.new)
        ⊎ ((command ≡ Command.Run)
        × ((card : ℕ) × IsTold (Fault.Unread card) result.is_told (V.contents faults.old) (V.contents faults.new))) }
    ensures memory { result.status ≡ 5 → IsTold Fault.Memory result.is_told (V.contents faults.old) (V.contents faults.new) }
    ensures failed { 3 ≤ result.status → (told : Fault) × (result.status ≡ status_of told)
        × HasFailed command text.now (R.remaining deck) (W.contents out.old) (W.contents out.new) told (Fault.File path.entry) (out.new ≡ out.old)
        × IsTold told result.is_told (V.contents faults.old) (V.contents faults.new) }
    ensures front { command ≢ Command.Run → (out.new ≡ out.old)
        ⊎ WritesFront (IsDone command text.now (R.remaining deck)) (W.contents out.old) (W.contents out.new) }
    ensures statuses { (result.status ≡ 0) ⊎ (3 ≤ result.status × result.status ≤ 5) }
{
    match carry_out(alloc, command, text, path, deck, out) {
        Ok(()) => Ending {
            status: 0,
            is_told: true,
        },
        Err(fault) => tell(&fault, faults),
    }
}

/// Does the command of a word as [`serve_command`] does. By a word that is no command nothing is read and nothing printed, and the status is
/// 2.
pub fn serve_to_end<R: Read + Drop, W: Write, V: Write>(
    alloc: Global,
    command: &str,
    text: &[u8],
    path: &str,
    deck: R,
    out: &mut W,
    faults: &mut V,
) -> Ending
    ensures unknown { IsNoCommand command.now → (result.status ≡ 2) × (out.new ≡ out.old)
        × IsTold (Fault.Unknown command.entry) result.is_told (V.contents faults.old) (V.contents faults.new) }
    ensures mistaken { result.status ≡ 2 → IsNoCommand command.now }
    ensures done { result.status ≡ 0 → (known : Command) × (command.now ≡ word_of known)
        × HasServed known text.now (R.remaining deck) (W.contents out.old) (W.contents out.new) × (faults.new ≡ faults.old) }
    ensures refused { result.status ≡ 3 → (known : Command) × (told : Fault) × (command.now ≡ word_of known)
        × HasRefused known text.now (R.remaining deck) (W.contents out.old) (W.contents out.new) told (out.new ≡ out.old)
        × IsTold told result.is_told (V.contents faults.old) (V.contents faults.new) }
    ensures device { result.status ≡ 4
        → ((out.new ≡ out.old) × (command.now ≡ word_of Command.Replay) × HasWiring text.now
        × IsTold (Fault.File path.entry) result.is_told (V.contents faults.old) (V.contents faults.new))
        ⊎ IsTold Fault.Write result.is_told (V.contents faults.old) (V.contents faults.new)
        ⊎ ((command.now ≡ word_of Command.Run)
        × ((card : ℕ) × IsTold (Fault.Unread card) result.is_told (V.contents faults.old) (V.contents faults.new))) }
    ensures memory { result.status ≡ 5 → IsTold Fault.Memory result.is_told (V.contents faults.old) (V.contents faults.new) }
    ensures failed { 3 ≤ result.status → (known : Command) × (told : Fault) × (command.now ≡ word_of known)
        × (result.status ≡ status_of told)
        × HasFailed known text.now (R.remaining deck) (W.contents out.old) (W.contents out.new) told (Fault.File path.entry) (out.new ≡ out.old)
        × IsTold told result.is_told (V.contents faults.old) (V.contents faults.new) }
    ensures front { command.now ≢ word_of Command.Run → (out.new ≡ out.old) ⊎ ((known : Command) × (command.now ≡ word_of known)
        × WritesFront (IsDone known text.now (R.remaining deck)) (W.contents out.old) (W.contents out.new)) }
    ensures statuses { (result.status ≢ 1) × (result.status ≤ 5) }
{
    let Some(known) = Command::named(command) else {
        return tell(&Fault::Unknown { word: command }, faults);
    };
    serve_command(alloc, known, text, path, deck, out, faults)
}

/// Does one command as [`serve_to_end`] does, and answers the status alone.
pub fn serve<R: Read + Drop, W: Write, V: Write>(
    alloc: Global,
    command: &str,
    text: &[u8],
    path: &str,
    deck: R,
    out: &mut W,
    faults: &mut V,
) -> u8
    ensures unknown { IsNoCommand command.now → (result ≡ 2) × (out.new ≡ out.old) }
    ensures mistaken { result ≡ 2 → IsNoCommand command.now }
    ensures done { result ≡ 0 → (known : Command) × (command.now ≡ word_of known)
        × HasServed known text.now (R.remaining deck) (W.contents out.old) (W.contents out.new) × (faults.new ≡ faults.old) }
    ensures refused { result ≡ 3 → (known : Command) × (told : Fault) × (command.now ≡ word_of known)
        × HasRefused known text.now (R.remaining deck) (W.contents out.old) (W.contents out.new) told (out.new ≡ out.old) }
    ensures failed { 3 ≤ result → (known : Command) × (told : Fault) × (command.now ≡ word_of known) × (result ≡ status_of told)
        × HasFailed known text.now (R.remaining deck) (W.contents out.old) (W.contents out.new) told (Fault.File path.entry) (out.new ≡ out.old) }
    ensures front { command.now ≢ word_of Command.Run → (out.new ≡ out.old) ⊎ ((known : Command) × (command.now ≡ word_of known)
        × WritesFront (IsDone known text.now (R.remaining deck)) (W.contents out.old) (W.contents out.new)) }
    ensures statuses { (result ≢ 1) × (result ≤ 5) }
{
    serve_to_end(alloc, command, text, path, deck, out, faults).status
}
