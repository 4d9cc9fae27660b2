//! What the machine prints on a line, said of the wheels alone: which sets of rows the items of a chart send to their wheels,
//! and that these print, under zero control and the chart's jacks, as the lines of the report.
//!
//! `specs/Shown.antt` says what each line of the chart sends to the line of a card, to a total line and to a heading line, and
//! `specs/Held.antt` what a total line rests on. Below stand the jacks of a chart, its reports, and the print wheels; how the sets
//! come to the wheels is told above. There is nothing to run here: `laws` has the laws.

pub mod laws;
