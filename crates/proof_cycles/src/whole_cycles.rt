//! A cycle of the simulated machine as a whole.
//!
//! The machine runs a cycle point by point. What its exits emit at the rows hangs on the state before the cycle and on the
//! picture of the control point alone, and so a cycle can be told at once: its control point, its twelve rows side by side,
//! its closing point, and what each unit is after it. `specs/` tells it so, for every setup of the panel, and says which ways
//! an impulse takes where no wire leads from one contact to the next.

pub mod laws;
