//! What is shown of a run.

/// Which of the cards of a deck, or of the cycles of a run, have an element on a page: those from one number to another, counted from 1.
#[derive(Clone, Copy, Debug, PartialEq, Eq)]
pub struct Shown {
    /// The number of the first one.
    pub first: usize,
    /// The number of the last one; none is shown if it is below the first.
    pub last: usize,
}

impl Shown {
    ghost use Rattle.std.specs.Prelude.{◌≡◌};
    ghost use Rattle.show_links.specs.Links.{is_shown};

    /// Whether the one with this number has an element.
    pub fn has(self, number: usize) -> bool
        ensures { result ≡ is_shown self number }
    {
        self.first <= number && number <= self.last
    }
}

/// What is shown of a run.
#[derive(Clone, Copy, Debug, PartialEq, Eq)]
pub struct ShownRun {
    /// Which of the cards of its deck.
    pub cards: Shown,
    /// Which of its cycles.
    pub cycles: Shown,
}
