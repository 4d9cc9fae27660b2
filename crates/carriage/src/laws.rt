//! Laws of the carriage's moves.

ghost use Rattle.std.specs.Prelude.{◌≡◌, ℕ, ◌↔◌, Some, None};
ghost use Rattle.hubs.specs.SetupsWords.Tapes.{CarriageTape};
ghost use Rattle.carriage.specs.Laws.{IsNextStop, HasNoStopBelow, GoesDownOnTheForm, GoesToTheNextForm};
ghost use Rattle.carriage.specs.Moves.{next_stop};

/// The law of skips: the next stop of a channel is the first one strictly below the line that this form has, and there is none
/// exactly where the form has no stop of the channel below the line. The call does nothing.
pub fn skips_go_to_the_next_stop_below()
    ensures found { (form : CarriageTape) (channel line stop : ℕ)
        → (next_stop form channel line ≡ Some stop) ↔ IsNextStop form channel line stop }
    ensures none { (form : CarriageTape) (channel line : ℕ)
        → (next_stop form channel line ≡ None) ↔ HasNoStopBelow form channel line }
{}

/// The law of going down: as many lines below, and after the last line of the form on the next page, with the
/// restore latch set where the overflow line was reached or passed on the way. The call does nothing.
pub fn going_down_notices_the_overflow_line()
    ensures on_the_form { GoesDownOnTheForm }
    ensures to_the_next_form { GoesToTheNextForm }
{}
