//! The lines of a run that are shown, each with the cycle that placed it: all of them, or those of some pages.
//!
//! [`all_lines`] answers all lines, [`lines_on_pages`] those of the pages whose numbers it is given. Of the other lines of the run nothing is
//! kept. `specs/ShownLines/Shown.antt` says which lines these are.

mod shown;

pub use shown::{ShownLines, all_lines, lines_on_pages};
