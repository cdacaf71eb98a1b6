// What a statistic does not see.
/// The slow movement of the samples that leaves a statistic's totals as they are.
#[derive(Clone, Copy, PartialEq, Eq, Debug)]
pub enum Blindness {
    /// a constant and a ramp, a + b·i
    Ramps,
    /// a drift too, d·i(i - 1)/2
    Drifts,
}
