//! Laws of assignments. The functions do nothing: the contract of each is the law.

ghost use Rattle.std.specs.Prelude.{◌≡◌, List};
ghost use Rattle.capacity.specs.Capacities.{Capacities};
ghost use Rattle.chart_plans.specs.declared.plans.counter.TotalCounter.{TotalCounter};
ghost use Rattle.chart_lines.specs.ChartsWords.Chart.{Chart};
ghost use Rattle.chart_rules.specs.Rules.{IsLawful};
ghost use Rattle.chart_plans.specs.WantedWords.ChartTotals.{totals_of};
ghost use Rattle.chart_plans.specs.WantedWords.Totals.{NeedsFit};
ghost use Rattle.allocate.specs.Groups.{IsByRule};
ghost use Rattle.allocate.specs.Laws.{ChartsWithinHaveAnAssignment, ChartsOverHaveNone, FittingChartsHaveNoFault, ChartsExceedOneCapacity};
ghost use Rattle.chart_plans.specs.declared.wanted.total.Total.{Total};

/// No total of a chart that breaks no rule needs more positions than two of the widest counter groups have; where such a chart exceeds
/// the counter groups at no width, each of its totals can have a counter of its own, one group or two of 8; where any chart exceeds
/// them at a width, not all can.
pub fn totals_fit_exactly_where_no_width_is_over()
    ensures needs { (chart : Chart) → IsLawful chart → NeedsFit (totals_of chart.lines) }
    ensures fit { ChartsWithinHaveAnAssignment }
    ensures over { ChartsOverHaveNone }
{}

/// The rule gives totals at most one list of counters.
pub fn the_rule_gives_one_list()
    ensures { (totals : List Total) (machine : Capacities) (counters others : List TotalCounter)
        → IsByRule totals machine counters → IsByRule totals machine others → counters ≡ others }
{}

/// What fits a machine has no fault on it.
pub fn fitting_charts_have_no_fault()
    ensures { FittingChartsHaveNoFault }
{}

/// What doesn't fit a machine has one fault on it: the first capacity that is exceeded is one, and so is what is told of it.
pub fn charts_exceed_one_capacity()
    ensures { ChartsExceedOneCapacity }
{}
