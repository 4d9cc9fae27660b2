//! The files of cases.

use anyhow::Result;
use std::{fs, io};

// The path of a file of a case.
fn path_of(rt: &HostRuntime, kind: &str, name: &str, holding: &str) -> io::Result<String> {
    Ok([kind, "/", name, ".", holding].concat(rt.alloc())?)
}

/// The bytes of a file of a case, by the folder of its kind, its name and what it holds.
pub fn read_case(rt: &HostRuntime, kind: &str, name: &str, holding: &str) -> Result<Vec<u8>> {
    let path = path_of(rt, kind, name, holding)?;
    Ok(fs::read(rt, &path)?)
}

/// The text of a file of a case.
pub fn read_text(rt: &HostRuntime, kind: &str, name: &str, holding: &str) -> Result<String> {
    let path = path_of(rt, kind, name, holding)?;
    Ok(fs::read_to_string(rt, &path)?)
}

/// A chart of either kind, and a deck.
#[derive(Drop)]
pub struct Case {
    pub text: Vec<u8>,
    pub deck: Vec<u8>,
}

impl Case {
    /// Reads a case, by the folder of its kind, its name and what the file of its chart holds.
    pub fn read(rt: &HostRuntime, kind: &str, name: &str, holding: &str) -> Result<Case> {
        Ok(Case {
            text: read_case(rt, kind, name, holding)?,
            deck: read_case(rt, kind, name, "deck")?,
        })
    }
}
