//! Layers over a series, each again a series: window and differences. (The trend and the mirrors have crates of their own.)
//! A layer takes its series by value, and a reference to a series is a series; it copies no sample and allocates nothing.
//! A maker refuses a series that has too few samples or too large a reach for the layer. What it found of the series that it
//! accepted is the layer's invariant, so a layer always shows all of its samples.
#![tactic(auto)]

pub mod accept;
pub mod differences;
pub mod window;
