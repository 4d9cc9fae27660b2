//! Laws of ledgers: an account has one ledger, it holds all changes of its number, and a way is told of each digit that came to it; the
//! numbers of two groups as one add up; and the ledger of a total of a chart tells the amounts of the report.

pub mod laws;
