//! Reading a panel back: from a setup to the planning chart whose wiring it is.
//!
//! Wires of one kind, from one kind of exit to one kind of entry, are asked for by one thing of a chart alone, but for three kinds: a column
//! that leads to a wheel shows a text or a digit of an amount, an emitter a character of a literal or a point, a counter that leads to a
//! counter its own sign or the total of the next level. The jacks tell the first two apart: LINK, SUPPRESS and SYMBOL show the zones of
//! wheels in which amounts stand. The counter that is entered tells the third.
//!
//! So a setup is read step by step: zones, counters, totals, amounts and texts on the line of a card, texts on total lines, control fields,
//! literals, the form. Each step takes the lowest of several columns, wheels or levels, and none looks at the numbers of the parts beyond
//! what they are wired to: the chart is the same however the parts are numbered.
#![tactic(auto)]

mod card_line;
mod chains;
mod compared;
mod control_fields;
mod draft;
mod dropping;
mod hub_rows;
mod lines;
mod literals;
mod names;
mod reading;
mod total_texts;
mod totals;
mod writing;
mod zones;

pub use draft::{Control, Draft, DraftField, Item, PrintedLine, Said};
pub use lines::DraftLine;
pub use reading::{Reading, read_panel};
pub use writing::write_draft;
