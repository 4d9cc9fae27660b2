//! Words that are a letter away from one another.

ghost use Rattle.std.specs.Prelude.{◌≡◌};
ghost use Rattle.fault_slips.specs.LineSlips.Near as law;

/// Whether the first two letters of two words are swapped, and the others are the same.
fn is_swapped(one: &[u8], other: &[u8]) -> bool
    ensures { result ≡ law.is_swapped one.now other.now }
{
    match (one, other) {
        ([a, b, ones @ ..], [c, d, others @ ..]) => a == d && b == c && ones == others,
        _ => false,
    }
}

/// Whether two words are a letter away from one another: one letter is another one, is left out, or is swapped with the next.
#[tactic(auto, unfolding(crate::specs::LineSlips::Near::is_near))]
pub fn is_near(one: &[u8], other: &[u8]) -> bool
    ensures { result ≡ law.is_near one.now other.now }
{
    match (one, other) {
        ([], []) => false,
        ([], [_, others @ ..]) => others.is_empty(),
        ([_, ones @ ..], []) => ones.is_empty(),
        ([first, ones @ ..], [next, others @ ..]) if first == next => is_near(ones, others),
        ([_, ones @ ..], [_, others @ ..]) => ones == others
            || ones == other
            || one == others
            || is_swapped(one, other),
    }
}
