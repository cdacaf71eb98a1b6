//! The bench: an open run that takes samples, and a released run that takes none.
#![tactic(auto)]

pub mod run;
