//! A series of samples: what it means, why a call is refused, and the two stores that are series.
#![tactic(auto)]

pub mod fault;
pub mod form;
pub mod packed;
pub mod store;
