//! What is counted in a served run.

/// What is counted in a served run.
#[derive(Clone, Copy, Debug, PartialEq, Eq)]
pub struct Counts {
    /// How many rounds were taken in all cycles.
    pub rounds: u64,
    /// How many hubs the pictures had that the units sensed, all together.
    pub seen: u64,
}
