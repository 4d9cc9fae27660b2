//! The compiled chart and the panel of two texts.

ghost use Rattle.std.specs.Prelude.{◌≡◌, ◌≢◌, IfErr, IfOk};
ghost use Rattle.card_code.specs.Deck.{Deck};
ghost use Rattle.cli_matching.specs.Panels.{ArePanels, RefusesPanels};
ghost use Rattle.fault_lines.specs.ProgramIo.Refusals.{RefusesDeck};

use card_code::{Card, read_deck};
use compile407::{Compiled, compile};
use fault_lines::faults::Fault;
use hubs::setups::Setup;
use std::alloc::Global;
use wire_chart::{Version, read_setup, version_of_text};

/// A compiled chart, and a panel that is wired as a wiring chart says.
pub(crate) struct Panels {
    pub(crate) compiled: Compiled,
    /// The version in which the wiring chart was read.
    pub(crate) version: Version,
    pub(crate) setup: Setup,
}

// By hand, so that a function that drops both calls this.
impl Drop for Panels {
    fn drop(self) {
        let Panels {
            compiled: _compiled,
            version: _,
            setup: _setup,
        } = self;
    }
}

/// The compiled chart and the panel of a planning chart and a wiring chart.
///
/// # Errors
///
/// The fault of the planning chart, else that of the wiring chart; `Memory` where a growth was refused.
pub(crate) fn panels_of<'a>(alloc: Global, chart: &[u8], wiring: &[u8]) -> Result<Panels, Fault<'a>>
    ensures are { IfOk result (λ panels. ArePanels chart.now wiring.now panels.compiled panels.version panels.setup) }
    ensures refused { IfErr result (λ told. told ≢ Fault.Memory → RefusesPanels chart.now wiring.now told) }
{
    let compiled = compile(alloc, chart)?;
    let setup = read_setup(alloc, wiring)?;
    Ok(Panels {
        compiled,
        version: version_of_text(wiring),
        setup,
    })
}

/// The cards of a deck.
///
/// # Errors
///
/// The fault of the deck's text; `Memory` where a growth was refused.
pub(crate) fn cards_of<'a>(alloc: Global, deck: &[u8]) -> Result<Vec<Card>, Fault<'a>>
    ensures deck { IfOk result (λ cards. Deck deck.now cards.items) }
    ensures refused { IfErr result (λ told. told ≢ Fault.Memory → RefusesDeck deck.now told) }
{
    Ok(read_deck(alloc, deck)?)
}
