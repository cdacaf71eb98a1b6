// The read-out of a factor: 4,096 · T / V of each part, rounded down, in 64 bits.
ghost use Rattle.std.specs.Prelude.{◌≡◌, ℕ, ◌+◌, ◌*◌, ◌/◌, ◌<◌, ◌≤◌, Ok};
ghost use Rattle.statistics.specs.Model.{Model, parts_of, IsPart};
ghost use Rattle.statistics.specs.Totals.{fitting};
ghost use Rattle.statistics.specs.ReadOut.{share, read_step, read_from, read_out, ReadNear};

use crate::form::Statistic;
use crate::part::part;
use series::fault::{Cause, Fault, Layer};
use series::form::Series;

// Twelve binary places of rest / divisor, one by one: a remainder r doubles past the divisor where r ≥ divisor - r.
fn twelve_places(rest: u64, divisor: u64) -> u64
    requires { rest < divisor }
    ensures { result ≡ (4096 * rest) / divisor }
{
    let mut left = rest;
    let mut places = 0;
    for _i in 0..12u64 {
        if left >= divisor - left {
            left -= divisor - left;
            places = 2 * places + 1;
        } else {
            left += left;
            places *= 2;
        }
    }
    places
}

// A part's share, where a word holds it. (A part is the two numbers, total and divisor, from the statistic to the job's line.)
fn share_of(total: u64, divisor: u64) -> Option<u64>
    requires { 1 ≤ divisor }
    ensures { result ≡ fitting (share total divisor) }
{
    let places = twelve_places(total % divisor, divisor);
    Some((total / divisor).checked_mul(4096)? + places)
}

// The sum with a part's share, where a word holds it.
fn lift(sum: u64, total: u64, divisor: u64) -> Option<u64>
    requires { 1 ≤ divisor }
    ensures { result ≡ fitting (sum + share total divisor) }
{
    sum.checked_add(share_of(total, divisor)?)
}

// The sum with the share of a part that is accepted.
fn add_share<T: Statistic, S: Series>(
    s: &S,
    factor: u64,
    number: u64,
    sum: u64,
) -> Result<u64, Fault>
    requires { IsPart T.model.formula (S.seen s.now).size factor number }
    ensures { result ≡ read_step T.model.formula (S.seen s.now) factor number sum }
{
    let (total, divisor) = part::<T, S>(s, factor, number)?;
    let terms = T::terms(s.length(), factor, number)?;
    let lifted = lift(sum, total, divisor);
    lifted.ok_or(Layer::Statistic.refusal(Cause::TotalTooLarge, terms))
}

// The sum of the shares of all parts, of which there are so many.
fn sum_of_shares<T: Statistic, S: Series>(s: &S, factor: u64, parts: u64) -> Result<u64, Fault>
    requires { parts_of T.model.formula (S.seen s.now).size factor ≡ Ok parts }
    ensures { result ≡ read_from T.model.formula (S.seen s.now) factor 1 parts 0 }
{
    let mut sum = 0;
    for number in 1..=parts {
        sum = add_share::<T, S>(s, factor, number, sum)?;
    }
    Ok(sum)
}

/// The read-out of a series at a factor. It is at most 4,096 times the exact variance, and short of it by less than one for each part.
pub fn read_out<T: Statistic, S: Series>(s: &S, factor: u64) -> Result<u64, Fault>
    ensures value { result ≡ read_out T.model.formula (S.seen s.now) factor }
    ensures near { ReadNear T.model.formula (S.seen s.now) factor result }
{
    let parts = T::parts(s.length(), factor)?;
    sum_of_shares::<T, S>(s, factor, parts)
}
