//! Laws of runs over decks whose cards come one by one. The functions do nothing: the contract of each is the law.

ghost use Rattle.report_runs.specs.Laws.{FeedsPlaceInOrder, MisfitsAreTheDecks, StreamsBegin, StreamsEnd, StreamsGoOn, StreamsMayHaveNoCard, TextsHaveOneCause};

/// A run begins where the machine is fed a valid card.
pub fn streams_begin()
    ensures { StreamsBegin }
{}

/// It goes on where the next card is valid and not one too many, the groups that end with the card that waits have no misfit, and the
/// machine is fed the next card.
pub fn streams_go_on()
    ensures { StreamsGoOn }
{}

/// Where the groups that end with the last card have no misfit and the machine is fed the end, the deck fits, and the lines placed are
/// those of the machine's run over the deck.
pub fn streams_end()
    ensures { StreamsEnd }
{}

/// A machine that is fed the end at once has run over the deck without cards.
pub fn streams_may_have_no_card()
    ensures { StreamsMayHaveNoCard }
{}

/// The lines that a feed places come in order after those of the feeds before it.
pub fn feeds_place_in_order()
    ensures { FeedsPlaceInOrder }
{}

/// A misfit at which a run stops is the first of the whole deck, also where the deck goes on after the cards that were read.
pub fn misfits_are_the_decks()
    ensures { MisfitsAreTheDecks }
{}

/// A text stops runs for one cause: that of a run over it, unless memory or a device has stopped it, is that of each other one.
pub fn texts_have_one_cause()
    ensures { TextsHaveOneCause }
{}
