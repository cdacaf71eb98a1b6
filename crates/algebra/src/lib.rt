//! Lemmas over ℤ and ℕ: a ring normaliser, finite sums, squares, differences, windows, trends and mirrors.
//! The functions have no work to do: the contract of each is a theorem, which the check proves.
#![tactic(auto)]

ghost use Rattle.algebra.specs.Claims.{SumLaws, SquareLaws, SecondLaws, StepLaws, WindowLaws, TrendLaws, OddMirrorLaws, EvenMirrorLaws};

/// Congruence, split, one more term, reversal, scaling and sums of sums.
pub fn sum_laws()
    ensures { SumLaws }
{}

/// A square is its number times itself, and the square of a product the product of the squares.
pub fn square_laws()
    ensures { SquareLaws }
{}

/// A second difference scales, does not see a ramp, and stands backwards in the sequence read backwards.
pub fn second_laws()
    ensures { SecondLaws }
{}

/// Differences make a ramp of a drift, and of a sequence read backwards stand backwards with the sign turned.
pub fn step_laws()
    ensures { StepLaws }
{}

/// A part of a sequence keeps its ramp, and of a sequence read backwards is a part read backwards.
pub fn window_laws()
    ensures { WindowLaws }
{}

/// Without its trend a ramp is a constant, a sequence read backwards is the same backwards plus a constant,
/// and nothing passes five times the scale times the reach of the samples.
pub fn trend_laws()
    ensures { TrendLaws }
{}

/// A ramp goes on through the odd mirror, and a sequence read backwards has its mirror read backwards.
pub fn odd_mirror_laws()
    ensures { OddMirrorLaws }
{}

/// The even mirror has the period 2n, and of a sequence read backwards is the mirror moved by n.
pub fn even_mirror_laws()
    ensures { EvenMirrorLaws }
{}
