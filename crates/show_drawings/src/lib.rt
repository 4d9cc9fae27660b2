//! Drawings of cards and of the panel, as markup.
//!
//! - `markup`: text inside of XHTML
//! - `drawings`: punched cards and the control panel
#![tactic(auto)]

pub mod drawings;
pub mod markup;
