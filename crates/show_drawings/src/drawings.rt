//! Punched cards and the control panel as drawings.
//!
//! - `card_drawing`: punched cards as drawings
//! - `panel_drawing`: the control panel as a drawing

pub mod card_drawing;
pub mod panel_drawing;
