//! Pages written line by line to a sink that may fail.
//!
//! [`PageWriter`] takes placed lines in order, and writes what the pages gain by each. What it has written is a prefix of the pages at
//! every time, also after a failure, and it tells how long it is. It asks for no memory.
//!
//! ```text
//! let mut pages = PageWriter::new(ToWrite::new(file), form_lines);
//! for line in lines { pages.add(line)?; }
//! let Finished { sink, ended } = pages.finish();
//! ```
//!
//! `specs/` has what is written so far of the pages of lines, what a line adds to it, and what goes out to a sink. The contracts of
//! [`laws`] join these to the pages of `page_text`. The sinks of `report_streams` are offered here too.
#![tactic(auto)]

mod fault;
mod feeding;
pub mod laws;
mod outlet;
mod writer;

pub use fault::WriteFault;
pub use report_streams::devices::{DeviceFailed, Sink, ToWrite};
pub use writer::{Finished, PageWriter, write_pages};
