//! Whether two setups are the same.

ghost use Rattle.std.specs.Prelude.{◌≡◌, ◌↔◌, ◌&&◌, IsTrue, nat_eq};
ghost use Rattle.match_panels.specs.DifferencesWords.Differences.{IsDifference};
ghost use Rattle.hubs.specs.SetupsWords.Wiring.{IsSameSetup};

use crate::differences::panel_progress::is_same_form;
use crate::differences::sizes::size;
use hubs::setups::Setup;

// Whether tapes have one form, and nothing is missing and nothing extra.
fn has_none(same_form: bool, missing: u32, extra: u32) -> bool
    ensures { result ≡ (same_form && (nat_eq missing 0 && nat_eq extra 0)) }
{
    same_form && missing == 0 && extra == 0
}

/// Whether two setups are the same, by what each has and the other has not: nothing, and their tapes have one form.
pub fn is_same(one: &Setup, other: &Setup, missing: &Setup, extra: &Setup) -> bool
    requires missing { IsDifference one.now other.now missing.now }
    requires extra { IsDifference other.now one.now extra.now }
    ensures { IsTrue result ↔ IsSameSetup one.now other.now }
{
    let same_form = is_same_form(one.tape(), other.tape());
    let missing = size(missing);
    let extra = size(extra);
    has_none(same_form, missing, extra)
}
