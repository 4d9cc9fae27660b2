//! Counter groups: they add and subtract what is entered, and read out what they hold.
#![tactic(auto)]

mod all_rows;
mod controls;
mod digits;
mod group;
mod laws;
mod sensing;
mod turn;

pub use controls::Controls;
pub use digits::Digits;
pub use group::{Group, group_of_unit};
pub use laws::{
    carries_follow_the_rule, cycles_are_sums, earliest_rows_are_entered, groups_are_numbered,
    groups_stay_groups, pairs_are_counters, turning_is_adding, wired_groups_are_rings,
    wired_pairs_are_coupled,
};
