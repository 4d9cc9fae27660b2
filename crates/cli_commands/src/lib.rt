//! The commands on texts, over any reader and writers, without a word of a command line.
//!
//! - `commands`: runs, checks, wiring charts, replays
//! - `panel_guides`: what is told beside a panel and its pages: legend, explanation, ledger, trace
#![tactic(auto)]

pub mod commands;
pub mod panel_guides;
