//! The lines of a text by their numbers, where the tokens of a line stand, a mark under one of them, and what the entries of faults
//! have in common.
//!
//! [`line_numbered`] answers a line of a text, [`end_line`] the number of the first one that is END, and [`emptied`] the text without what
//! stands on a line. [`word`] is the token of a line that has so many others before it, [`token_span`] tells from which byte to which it stands, and [`write_mark`] writes the line of blanks and carets
//! that stands below. Tokens are those of `chart_lines`; a line that isn't made of tokens is divided by the same signs, as far as that goes.
//! [`write_head`], [`write_shown`] and [`write_below`] write the lines of an entry.
//!
//! `specs/Spans.antt` says where a token stands, `Marks.antt` what a mark is, `Emptied.antt` what an emptied line leaves of a text,
//! `FirstLines.antt` which line is the first that passes a test, and `Entries.antt` how the lines of an entry are written.

mod emptying;
mod entry;
mod mark;
mod numbered;
mod span;

pub use emptying::emptied;
pub use entry::{write_below, write_head, write_shown};
pub use mark::write_mark;
pub use numbered::{end_line, line_numbered};
pub use span::{Span, token_span, word};
