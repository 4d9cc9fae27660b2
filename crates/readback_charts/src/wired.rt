//! The chart that is read off a panel, where the panel is wired for it.

ghost use Rattle.std.specs.Prelude.{IfOk, IfSome, string_bytes};
ghost use Rattle.readback_charts.specs.KnownCharts.{IsReadOff, known_in};
ghost use Rattle.readback_charts.specs.PanelChart.{IsReadBack};

use crate::answer::{PanelChart, chart_beside};
use crate::lawful::{chart_in, text_read};
use hubs::setups::Setup;
use std::alloc::{AllocError, Global};

/// The chart that is known of a panel: a text is read off it, no line left out, and this is its chart, if it is one and the panel is wired
/// for it by any plan; else none is known. No other text is tried, so `None` doesn't say that there is no chart for which the panel is wired.
/// Its only refusal is memory.
pub fn wired_chart(alloc: Global, setup: &Setup) -> Result<Option<PanelChart>, AllocError>
    ensures known { IfOk result (λ found. IsReadOff setup.now (known_in found)) }
    ensures read { IfOk result (λ found. IfSome found (λ panel. IsReadBack setup.now (string_bytes panel.text) panel.compiled panel.matching)) }
{
    let text = text_read(alloc, setup)?;
    let Some(chart) = chart_in(alloc, text)? else {
        return Ok(None);
    };
    let panel = chart_beside(alloc, chart, setup)?;
    if panel.is_wired() {
        Ok(Some(panel))
    } else {
        Ok(None)
    }
}
