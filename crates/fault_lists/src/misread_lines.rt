//! All lines of a chart's text that no form derives.
//!
//! `read_chart` of `chart_text` tells the lowest line that is none of a chart. [`misread_lines`] empties that line and reads the text again, until
//! no such line is left. An empty line says nothing, and END stands where it stood: so the lines are all that no form derives, or
//! that stand after END.
//!
//! `specs/MisreadLines/Misread.antt` says which lines are listed.

mod listing;

pub use listing::misread_lines;
