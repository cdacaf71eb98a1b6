//! Two layers that set a series between mirrors: the odd mirror, and the even mirror.
#![tactic(auto)]

pub mod even_mirror;
pub mod odd_mirror;
