//! What is found of a setup and a chart.

use chart_plans::plans::Plan;
use hubs::setups::Setup;

/// What is found of a setup beside a chart.
pub enum Matching {
    /// The setup is wired for the chart by this plan: it has exactly the wires, the jacks and the tape that they ask for.
    Matched {
        /// The plan.
        plan: Plan,
    },
    /// The setup is not wired for the chart by this plan.
    Differs {
        /// A plan of the chart, read off the panel as far as its wires tell one.
        plan: Plan,
        /// What the chart asks for by the plan, and the setup has not: these wires, jacks and stops, on the form of the chart.
        missing: Setup,
        /// What the setup has, and the chart does not ask for by the plan, on the form of the setup.
        extra: Setup,
    },
}

// By hand, so that a function that drops one calls this, and doesn't drop its parts one by one.
impl Drop for Matching {
    fn drop(self) {
        match self {
            Matching::Matched { plan: _plan } => {}
            Matching::Differs {
                plan: _plan,
                missing: _missing,
                extra: _extra,
            } => {}
        }
    }
}
