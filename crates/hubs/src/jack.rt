//! The jacks of the panel.

ghost use Rattle.std.specs.Prelude.{◌≡◌};
ghost use Rattle.hubs.specs.HubTable.Ranges.{is_within};

/// How many jacks the panel has.
pub const JACKS: usize = 368;

/// A switch of the panel that is on where its jack is plugged.
///
/// A jack with a number out of range is on no panel, and is never plugged.
#[derive(Clone, Copy, Debug, PartialEq, Eq)]
pub enum Jack {
    /// LIST: card cycles print.
    List,
    /// TOTAL: the last program cycle of a level, 1 to 4, prints.
    Total(u8),
    /// HEAD: a heading cycle, 1 to 3, prints.
    Head(u8),
    /// LINK: a wheel, 1 to 120, takes significance from the wheel on its left.
    Link(u8),
    /// SUPPRESS: a zero on a wheel, 1 to 120, that has no significance prints blank.
    Suppress(u8),
    /// SYMBOL: whatever stands on a wheel, 1 to 120, that has no significance prints blank.
    Symbol(u8),
}

impl Jack {
    ghost use Rattle.std.specs.Prelude.{◌≡◌, ◌<◌, true, Some, IfSome};
    ghost use Rattle.hubs.specs.Jacks.{is_jack_in_range, jack_place};

    /// Whether the panel has this jack.
    pub fn in_range(self) -> bool
        ensures { result ≡ is_jack_in_range self }
    {
        match self {
            Jack::List => true,
            Jack::Total(level) => is_within(level, 4),
            Jack::Head(heading) => is_within(heading, 3),
            Jack::Link(wheel) | Jack::Suppress(wheel) | Jack::Symbol(wheel) => {
                is_within(wheel, 120)
            }
        }
    }

    /// The jack with this place among the jacks of the panel, 0 to 367: LIST, then TOTAL, HEAD, LINK, SUPPRESS and SYMBOL, each
    /// by its numbers.
    pub fn at(place: usize) -> Option<Jack>
        ensures placed { IfSome result (λ jack. jack_place jack ≡ place) }
        ensures in_range { IfSome result (λ jack. is_jack_in_range jack ≡ true) }
        ensures found { (jack : Jack) → is_jack_in_range jack ≡ true → jack_place jack ≡ place → result ≡ Some jack }
    {
        match place {
            0 => Some(Jack::List),
            1..=4 => Some(Jack::Total(place as u8)),
            5..=7 => Some(Jack::Head((place - 4) as u8)),
            8..=127 => Some(Jack::Link((place - 7) as u8)),
            128..=247 => Some(Jack::Suppress((place - 127) as u8)),
            248..=367 => Some(Jack::Symbol((place - 247) as u8)),
            _ => None,
        }
    }

    /// The place of a jack in range among the jacks of the panel, 0 to 367, in the order of `at`.
    pub fn place(self) -> usize
        requires { is_jack_in_range self ≡ true }
        ensures place { result ≡ jack_place self }
        ensures within { result < JACKS }
    {
        match self {
            Jack::List => 0,
            Jack::Total(level) => usize::from(level),
            Jack::Head(heading) => 4 + usize::from(heading),
            Jack::Link(wheel) => 7 + usize::from(wheel),
            Jack::Suppress(wheel) => 127 + usize::from(wheel),
            Jack::Symbol(wheel) => 247 + usize::from(wheel),
        }
    }
}

// Whether a number is one of 1 to last.
fn is_within(number: u8, last: u8) -> bool
    ensures { result ≡ is_within number last }
{
    1 <= number && number <= last
}
