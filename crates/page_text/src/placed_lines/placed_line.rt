//! A printed line and its place.

/// How many print wheels a line has.
pub const LINE_WHEELS: usize = 120;

/// A printed line with its place in the report.
#[derive(Clone, Copy, Debug, PartialEq, Eq)]
pub struct PlacedLine {
    /// The page, from 1.
    pub page: u64,
    /// The line on the page, from 1.
    pub line: u32,
    /// The characters of the wheels 1 to 120, from the left.
    pub text: [u8; LINE_WHEELS],
}
