//! Where the sums behind printed figures stand on the page of a run.
//!
//! [`sum_behind`] tells which sum is behind the character on a wheel, by its explanation: that of the counter group that the wheel is
//! printed of. [`write_sum_name`] writes the name of its element, as `p1l5g8-1`, and [`write_sum_open`] a link to it.

mod places;

pub use places::{
    SumPlace, has_sum, sum_at, sum_behind, write_counter_name, write_sum_link, write_sum_name,
    write_sum_open,
};
