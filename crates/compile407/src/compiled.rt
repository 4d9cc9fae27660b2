//! Charts with the setups that are wired for them.

use chart_plans::plans::Plan;
use chart_rules::Chart;
use hubs::setups::Setup;
use std::marker::Model;

/// A planning chart with its plan, which says what of the machine serves what of the chart, and the setup of the panel that is
/// wired for it.
///
/// Contracts see it as the chart, the plan and the setup. The chart breaks no rule and exceeds no capacity of the
/// standard machine, the plan is the one that the rule of allocation gives, and the setup has the chart's wires, jacks and tape, and no
/// others.
pub struct Compiled {
    chart: Chart,
    plan: Plan,
    setup: Setup,
}

// By hand, so that a function that drops one calls this, and does not drop its parts one by one.
impl Drop for Compiled {
    fn drop(self) {
        let Compiled {
            chart: _chart,
            plan: _plan,
            setup: _setup,
        } = self;
    }
}

impl Model for Compiled {
    ghost use Rattle.compile407.specs.Compilation.{Compilation, IsCompiled};

    ghost Value = { Compilation };

    ghost view = { λ compiled. record { chart = compiled.chart; plan = compiled.plan; setup = compiled.setup } };

    ghost invariant = { λ compiled. IsCompiled
        (record { chart = compiled.chart; plan = compiled.plan; setup = compiled.setup }) };
}

impl Compiled {
    ghost use Rattle.std.specs.Prelude.{◌≡◌};
    ghost use Rattle.compile407.specs.Compilation.{IsCompiled};

    // A chart, its plan and the setup that was wired for it.
    pub(crate) fn of(chart: Chart, plan: Plan, setup: Setup) -> Compiled
        requires { IsCompiled (record { chart = chart; plan = plan; setup = setup }) }
        ensures { result ≡ record { chart = chart; plan = plan; setup = setup } }
    {
        Compiled { chart, plan, setup }
    }

    /// The chart.
    pub fn chart(&self) -> &Chart
        ensures value { result.now ≡ self.now.chart }
        ensures compiled { IsCompiled self.now }
    {
        &self.chart
    }

    /// What of the machine serves what of the chart.
    pub fn plan(&self) -> &Plan
        ensures value { result.now ≡ self.now.plan }
        ensures compiled { IsCompiled self.now }
    {
        &self.plan
    }

    /// The setup of the panel that is wired for the chart.
    pub fn setup(&self) -> &Setup
        ensures value { result.now ≡ self.now.setup }
        ensures compiled { IsCompiled self.now }
    {
        &self.setup
    }
}
