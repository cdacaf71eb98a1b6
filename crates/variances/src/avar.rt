// The overlapping Allan variance.
ghost use Rattle.std.specs.Prelude.{◌≡◌, ℕ, ◌+◌, ◌-◌, ◌*◌, ◌^◌, ◌<◌, ◌≤◌, pos, ◌+ℤ◌, ◌-ℤ◌, ◌*ℤ◌, Ok, nat_lt, unsigned_abs};
ghost use Rattle.algebra.specs.Differences.{second};
ghost use Rattle.series.specs.Limits.{farthest};
ghost use Rattle.series.specs.Seen.{Seen, samples};
ghost use Rattle.statistics.specs.Totals.{gated};
ghost use Rattle.variances.specs.Avar.{avar};

use series::fault::{Cause, Fault, Layer};
use series::form::Series;
use statistics::blindness::Blindness;
use statistics::form::{Statistic, accept, admit};
use statistics::total::grow;

/// The overlapping Allan variance.
#[derive(Clone, Copy)]
pub struct Avar;

// Whether 2 · factor < length.
fn enough(length: usize, factor: u64) -> bool
    ensures { result ≡ nat_lt (2 * factor) length }
{
    factor < (length - length / 2) as u64
}

// a - 2b + c (in place, that the sum does not wrap stayed open)
fn bend(a: i64, b: i64, c: i64) -> i64
    requires { (unsigned_abs a ≤ farthest) × ((unsigned_abs b ≤ farthest) × (unsigned_abs c ≤ farthest)) }
    ensures { result ≡ (a -ℤ pos 2 *ℤ b) +ℤ c }
{
    a - 2 * b + c
}

// The second difference at a place.
fn root<S: Series>(s: &S, gap: usize, place: usize) -> Result<i64, Fault>
    requires { place + 2 * gap < (S.seen s.now).size }
    ensures { result ≡ Ok (second (samples (S.seen s.now)) gap place) }
{
    let a = s.sample(place)?;
    let b = s.sample(place + gap)?;
    let c = s.sample(place + 2 * gap)?;
    Ok(bend(a, b, c))
}

// The total of all second differences at a gap.
fn sum_squares<S: Series>(s: &S, gap: usize) -> Result<u64, Fault>
    requires { 2 * gap ≤ (S.seen s.now).size }
    ensures { result ≡ gated (second (samples (S.seen s.now)) gap) ((S.seen s.now).size - 2 * gap) }
{
    let mut total = 0;
    for n in 0..s.length() - 2 * gap {
        let grown = grow(total, root(s, gap, n)?);
        total = grown.ok_or(Layer::Statistic.refusal(Cause::TotalTooLarge, n as u64))?;
    }
    Ok(total)
}

impl Statistic for Avar {
    const BLINDNESS: Blindness = Blindness::Ramps;

    ghost BLINDNESS = { avar.formula.blindness };

    ghost model = { avar };

    fn blind_to() -> Blindness {
        Self::BLINDNESS
    }

    fn parts(length: usize, factor: u64) -> Result<u64, Fault> {
        accept(length, factor > 0, enough(length, factor), 1)
    }

    fn divisor(length: usize, factor: u64, part: u64) -> Result<u64, Fault> {
        let terms = Self::terms(length, factor, part)?;
        Ok(2 * (factor * factor) * terms)
    }

    fn terms(length: usize, factor: u64, part: u64) -> Result<u64, Fault> {
        admit(Self::parts(length, factor), part)?;
        Ok(length as u64 - 2 * factor)
    }

    fn total<S: Series>(s: &S, factor: u64, part: u64) -> Result<u64, Fault> {
        admit(Self::parts(s.length(), factor), part)?;
        sum_squares(s, factor as usize)
    }
}
