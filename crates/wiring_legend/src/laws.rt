//! A law of legends.

ghost use Rattle.wiring_legend.specs.Laws.{LinesMakeTheSetup};

/// What the lines of a chart ask for, all together, is the setup of the chart. The function does nothing: its contract is the law.
pub fn lines_make_the_setup()
    ensures { LinesMakeTheSetup }
{}
