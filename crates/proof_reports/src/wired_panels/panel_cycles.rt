//! What the cycles of a panel that is wired for a chart ask of its counter groups, its print wheels and its carriage.
//!
//! `wired_panels` says what impulses arrive at which entries of such a panel. Here that is joined with the numbers of the totals, with the
//! items of printed lines, and with the carriage: what a counter group is asked in each cycle, what each print wheel receives at each row
//! of a cycle that prints, and what the carriage does.

pub mod laws;
pub mod line_places;
