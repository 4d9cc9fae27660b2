//! Reading a plan off a panel: which part serves which thing of a chart, as far as the wires of a setup tell.
//!
//! Of a total on a panel that is wired for the chart two wires name the counter group, or the lower one of two: the program cycle that
//! prints the level reads the group out, and its first place leads to the wheel of the units. The carry wire names the upper one. Of a
//! text on a total line the cycle and the first wheel name the storage unit, in the same way; a split and an indicate position are named by
//! the wheel to which they lead. A column of a control field and its level name the comparing position, and the sign column of an amount
//! its pilot, together with its lowest total or its mark. Where a column is compared twice for a level, the two positions may change places,
//! and the first that is not yet taken will do. Where nothing shows the part of a thing, one for which some of its wires
//! speak stands in for it, else a free one: so what is wrong can still be told. [`narrow_group`] tells a counter group that is named for a total
//! and too narrow for it.
#![tactic(auto)]

mod compared;
mod groups;
mod narrow;
mod near;
mod parts;
mod pilots;
mod plan;
mod stand_ins;
mod text_units;
mod total_counters;
mod wheel_parts;

pub use narrow::{Narrow, narrow_group};
pub use plan::read_plan;
