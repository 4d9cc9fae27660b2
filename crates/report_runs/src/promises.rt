//! What is promised of a setup and a chart: that it prints the chart's reports, and begins them where not all totals fit.
//!
//! `specs/Promises.antt` has the two promises, and what a valid deck is. That the setups which are wired for a
//! chart keep them is proved in `proof_reports`; streamed runs need no more than the promise. Nothing here is run.
