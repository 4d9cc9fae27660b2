//! Text inside of XHTML.
//!
//! [`push_escaped`] writes bytes so that a browser shows them and takes none of them for markup. What is written reads back as the bytes
//! (`specs/Escapes.antt` has the reading), and all of it is printable. This module stands on no other of this repository.

mod escapes;
mod laws;

pub use escapes::push_escaped;
pub use laws::escaped_texts_read_back;
