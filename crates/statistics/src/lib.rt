//! Statistics of any series: what one is, its part and its read-out.
#![tactic(auto)]

pub mod blindness;
pub mod form;
pub mod part;
pub mod read_out;
pub mod total;
