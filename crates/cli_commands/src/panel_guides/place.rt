//! Which wheel is to be explained.

/// A wheel of a printed line.
#[derive(Clone, Copy, Debug, PartialEq, Eq)]
pub struct Place {
    /// The page, from 1.
    pub page: u64,
    /// The line of the page, from 1.
    pub line: u32,
    /// The wheel, 1 to 120. Other numbers are no wheel's.
    pub wheel: u32,
}
