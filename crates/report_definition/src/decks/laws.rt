//! Laws of decks. The functions do nothing: the contract of each is the law.

ghost use Rattle.report_definition.specs.FollowedDecks.Laws.{MisfitsGoByCards, TotalsFitBeforeTheFirstMisfit, GroupsFitBeforeTheFirstMisfit, PlacesSplit};
ghost use Rattle.report_definition.specs.FollowedDecks.Laws.{FitsGoOn, FitsSoFarAreBefore, FitsSoFarEnd, FirstMisfitsAreTold};
ghost use Rattle.report_definition.specs.FollowedDecks.Laws.{ReportsBeginByCards, PagesAreFew, PagesHaveNumbers, GroupsAreAlike, TotalTextsAreTheLastCards};

/// The misfits of a deck are those of its cards.
pub fn misfits_go_by_cards()
    ensures { MisfitsGoByCards }
{}

/// The totals that end before the card of the first misfit fit.
pub fn totals_fit_before_the_first_misfit()
    ensures { TotalsFitBeforeTheFirstMisfit }
{}

/// The groups that end, card by card, before the card of the first misfit fit.
pub fn groups_fit_before_the_first_misfit()
    ensures { GroupsFitBeforeTheFirstMisfit }
{}

/// Before the second card no group has ended; and where the groups that end with the last card have no misfit, one card more can come.
pub fn fits_go_on()
    ensures { FitsGoOn }
{}

/// Where no group that ended so far has a misfit, the totals that end before the last card fit, whatever cards come later.
pub fn fits_so_far_are_before()
    ensures { FitsSoFarAreBefore }
{}

/// Where the groups that end with the last card of a deck have no misfit either, the deck fits.
pub fn fits_so_far_end()
    ensures { FitsSoFarEnd }
{}

/// The first misfit of the groups that end with the last card is the first of the deck, whatever cards come later.
pub fn first_misfits_are_told()
    ensures { FirstMisfitsAreTold }
{}

/// Body lines stand where the body lines before them leave the form.
pub fn places_split()
    ensures { PlacesSplit }
{}

/// A report begins with the lines of its first cards.
pub fn reports_begin_by_cards()
    ensures { ReportsBeginByCards }
{}

/// A deck has few body lines, and these start few pages.
pub fn pages_are_few()
    ensures { PagesAreFew }
{}

/// In the report of at most 999,999 cards no page number reaches 2 to the 32nd.
pub fn pages_have_numbers()
    ensures { PagesHaveNumbers }
{}

/// The cards of a group have the same punches in the control fields of its level and above.
pub fn groups_are_alike()
    ensures { GroupsAreAlike }
{}

/// A text on a total line is that of the group's last card.
pub fn total_texts_are_the_last_cards()
    ensures { TotalTextsAreTheLastCards }
{}
