//! One feed of the machine, and its lines on their way to the pages.

ghost use Rattle.std.specs.Prelude.{◌≡◌, [], IfErr, MatchResult, OnOk};
ghost use Rattle.machine.specs.Gains.{GainsFeed};
ghost use Rattle.cli_commands.specs.CommandsWords.DeckReplays.HelperFeeding.{ComeNext, StopsInFeed, TakesFeed};
ghost use Rattle.cli_commands.specs.declared.commands.replays.fault.ReplayCause.TheVariants as cause;

use crate::commands::replays::fault::ReplayCause;
use card_code::Card;
use machine::Machine;
use page_text::placed_lines::PlacedLine;
use report_streams::devices::Sink;
use report_writer::PageWriter;

// Feeds the machine the next card, or the end; the lines are then those of this feed.
fn feed(
    machine: &mut Machine,
    next: &Option<Card>,
    lines: &mut Vec<PlacedLine>,
) -> Result<(), ReplayCause>
    ensures lines { OnOk result (GainsFeed machine.old.net machine.old.machine next.now machine.new.machine [] lines.new.items) }
    ensures net { OnOk result (machine.new.net ≡ machine.old.net) }
    ensures refused { IfErr result (λ stopped. stopped ≡ cause.Memory) }
{
    lines.clear();
    machine.feed(*next, lines).map_err(|_| ReplayCause::Memory)
}

// Feeds the machine the next card, or the end, and takes the lines that this gives up for the pages.
pub(crate) fn print_feed<S: Sink + Drop>(
    machine: &mut Machine,
    next: &Option<Card>,
    lines: &mut Vec<PlacedLine>,
    pages: &mut PageWriter<S>,
) -> Result<(), ReplayCause>
    requires { ComeNext machine.old next.now pages.old }
    ensures done { MatchResult result (λ _. TakesFeed S.held machine.old next.now machine.new pages.old pages.new)
        (StopsInFeed S.held S.has_failed machine.old next.now pages.old pages.new) }
    ensures same { S.borrow pages.new.out.sink ≡ S.borrow pages.old.out.sink }
{
    feed(machine, next, lines)?;
    match pages.add_all(lines.as_slice()) {
        Ok(()) => Ok(()),
        Err(_) => Err(ReplayCause::Write),
    }
}
