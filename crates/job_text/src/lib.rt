//! The job: lines of text, worked one by one on a run.
#![tactic(auto)]

pub mod answer;
pub mod job;
pub mod report;
pub mod whole;
