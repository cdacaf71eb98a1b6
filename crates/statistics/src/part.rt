// The total and the divisor of a part.
ghost use Rattle.std.specs.Prelude.{◌≡◌};
ghost use Rattle.statistics.specs.Model.{Model, part_of};

use crate::form::Statistic;
use series::fault::Fault;
use series::form::Series;

/// The total and the divisor of a part of a series.
pub fn part<T: Statistic, S: Series>(s: &S, factor: u64, part: u64) -> Result<(u64, u64), Fault>
    ensures { result ≡ part_of T.model.formula (S.seen s.now) factor part }
{
    let total = T::total(s, factor, part)?;
    let divisor = T::divisor(s.length(), factor, part)?;
    Ok((total, divisor))
}
