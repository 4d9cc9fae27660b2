//! Laws over definitions alone: functions without a body, whose contracts are proved.

ghost use Rattle.chart_rules.specs.Outcomes.{ChartsHaveOneFault, CardsHaveOneFault};
ghost use Rattle.chart_rules.specs.Versions.{VersionsAreLawfulAlike};

/// A chart that breaks a rule has one fault: the lowest rule that it breaks and the lowest line that breaks it are one each.
pub fn charts_have_one_fault()
    ensures { ChartsHaveOneFault }
{}

/// A card that is not valid has one fault, that of the first field that is not valid on it.
pub fn cards_have_one_fault()
    ensures { CardsHaveOneFault }
{}

/// A chart of version 1, and the chart of version 2 of the same lines that bears the word COUPLED exactly where a total needs more
/// than 8 positions: where one breaks no rule, the other breaks none.
pub fn versions_are_lawful_alike()
    ensures { VersionsAreLawfulAlike }
{}
