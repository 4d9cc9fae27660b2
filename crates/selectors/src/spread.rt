//! Rows of contacts in which each thing, a level of group indication for one, has the same number of contacts.

ghost use Rattle.std.specs.Prelude.{◌≡◌, ◌+◌, ◌-◌, ◌*◌, ◌^◌, ◌≤◌, ◌<◌, length};
ghost use Rattle.std.specs.List.{list_any};
ghost use Rattle.selectors.specs.Spread.{parts_of, spread};

// The word with as many bits for each thing, set for those that are set. The first thing has the lowest bits.
#[inline(always)]
pub(crate) fn spread(things: &[bool], parts: usize) -> u128
    requires parts { parts ≤ 30 }
    requires fits { parts * length things.now ≤ 128 }
    ensures value { result ≡ spread parts things.now }
    ensures below { result < 2 ^ (parts * length things.now) }
{
    if !has_any(things) {
        return 0;
    }
    let mut bits = 0;
    for after in 0..things.len() {
        let at = things.len() - 1 - after;
        bits = with_parts(bits, parts, things[at]);
    }
    bits
}

// Whether any of the things is set: mostly none is.
#[inline(always)]
fn has_any(things: &[bool]) -> bool
    ensures { result ≡ list_any (λ thing. thing) things.now }
{
    let mut any = false;
    for thing in things {
        any |= *thing;
    }
    any
}

// The word moved up, with as many bits below it, all set or none.
#[inline(always)]
fn with_parts(bits: u128, parts: usize, test: bool) -> u128
    requires parts { parts ≤ 30 }
    requires fits { bits * 2 ^ parts + 2 ^ parts ≤ 2 ^ 128 }
    ensures { result ≡ bits * 2 ^ parts + parts_of parts test }
{
    bits << parts | parts_of(parts, test)
}

// As many bits, all set or none.
#[inline(always)]
fn parts_of(parts: usize, test: bool) -> u128
    requires { parts ≤ 30 }
    ensures value { result ≡ parts_of parts test }
    ensures below { result < 2 ^ parts }
{
    if test { (1 << parts) - 1 } else { 0 }
}
