//! A layer that takes the trend out of a series.
#![tactic(auto)]

pub mod detrended;
