#![tactic(auto)]

// Module 6's report: the lines that are printed of an input, proved to be document 01's.
// Public: every call is total, and its promise settles its whole answer.
mod lines;
mod report;

pub use refusals::Refusal;
pub use report::Report;
