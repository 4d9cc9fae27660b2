//! The places of lines on the carriage: a carriage with a chart's tape and jacks, asked in each cycle for what the chart asks for,
//! places lines as the report does.
//!
//! `specs/CycleAsks/` says what a chart asks for, and where the carriage stands between lines. The contracts of the functions are laws on that: for a
//! lawful chart each body line and each heading line comes to the place that the report gives it.

pub mod laws;
