//! The forms of tapes.

ghost use Rattle.std.specs.Prelude.{◌≡◌};
ghost use Rattle.match_panels.specs.DifferencesWords.PanelProgress.Forms.{forms, same_form};

use hubs::setups::Tape;

/// Whether two tapes have one form.
pub fn is_same_form(one: &Tape, other: &Tape) -> bool
    ensures { result ≡ same_form one.now other.now }
{
    one.lines() == other.lines()
        && one.first() == other.first()
        && one.overflow() == other.overflow()
}

/// How many forms are missing, and how many are extra: one, where two tapes have not one form.
pub fn forms(one: &Tape, other: &Tape) -> u32
    ensures { result ≡ forms one.now other.now }
{
    if is_same_form(one, other) { 0 } else { 1 }
}
