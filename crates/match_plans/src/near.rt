//! Numbers of parts where a setup doesn't show one for each thing: those that it shows, or that most of its wires speak for, and free ones for
//! the others. So what is wrong with a panel can be told beside what is right with it.

ghost use Rattle.std.specs.Prelude.{◌≤◌, IfOk, IfSome};
ghost use Rattle.chart_plans.specs.PlansWords.PartNumbers.{AreThere};

use std::alloc::{AllocError, Global};

// Whether a number is neither shown for some thing nor taken for one.
fn is_free(shown: &[Option<u8>], taken: &[u8], number: u8) -> bool {
    !shown.contains(&Some(number)) && !taken.contains(&number)
}

// The first free number of so many, if there is one.
fn free_number(shown: &[Option<u8>], taken: &[u8], last: u8) -> Option<u8>
    requires { last ≤ 30 }
    ensures { IfSome result (λ number. (1 ≤ number) × (number ≤ last)) }
{
    for place in 0..last {
        if is_free(shown, taken, place + 1) {
            return Some(place + 1);
        }
    }
    None
}

// A number of so many for a thing: the one that is shown, if it isn't taken, else a free one.
fn number_for(shown: &[Option<u8>], taken: &[u8], its: Option<u8>, last: u8) -> Option<u8>
    requires { last ≤ 30 }
    ensures { IfSome result (λ number. (1 ≤ number) × (number ≤ last)) }
{
    match its {
        Some(number) => {
            if 1 <= number && number <= last && !taken.contains(&number) {
                Some(number)
            } else {
                free_number(shown, taken, last)
            }
        }
        None => free_number(shown, taken, last),
    }
}

/// Numbers of so many for things, in their order: those that are shown, and free ones for the others; none where too few are left.
pub(crate) fn filled(
    alloc: Global,
    shown: &[Option<u8>],
    last: u8,
) -> Result<Option<Vec<u8>>, AllocError>
    requires { last ≤ 30 }
    ensures { IfOk result (λ numbers. IfSome numbers (λ list. AreThere last list.items)) }
{
    let mut numbers = Vec::new(alloc);
    for its in shown {
        match number_for(shown, numbers.as_slice(), *its, last) {
            Some(number) => numbers.push(number)?,
            None => return Ok(None),
        }
    }
    Ok(Some(numbers))
}
