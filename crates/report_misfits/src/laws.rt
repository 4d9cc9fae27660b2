//! Laws of open totals, for every chart and any cards. The functions do nothing: the contract of each is the law.

ghost use Rattle.report_misfits.specs.Laws.{CardsAddToOpenTotals, EndedGroupsClose, EndedGroupsTellMisfits};

/// Where a card is taken into the unfinished groups, each open total grows by the card's amount.
pub fn cards_add_to_open_totals()
    ensures { CardsAddToOpenTotals }
{}

/// Where groups end, the open totals of their levels begin anew at 0, and the others stay.
pub fn ended_groups_close()
    ensures { EndedGroupsClose }
{}

/// The misfits of a group that ends are those open totals of its level that have too many digits, in the order of the chart's lines.
pub fn ended_groups_tell_misfits()
    ensures { EndedGroupsTellMisfits }
{}
