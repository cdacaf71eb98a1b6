// A series without its trend.
ghost use Rattle.std.specs.Prelude.{◌≡◌, ◌+◌, ◌*◌, ◌≤◌, Ok, IfOk, unsigned_abs};
ghost use Rattle.algebra.specs.Sums.{sum_z};
ghost use Rattle.algebra.specs.Trends.{scale as scale_of, rise};
ghost use Rattle.algebra.specs.Windows.{onward};
ghost use Rattle.series.specs.Limits.{farthest};
ghost use Rattle.series.specs.Seen.{all, one, samples};
ghost use Rattle.layers.specs.Layers.{through};
ghost use Rattle.trend.specs.Trend.{detrended, detrended_of};
ghost use Rattle.trend.specs.Series.{detrended-Lawful};

use layers::accept::accept;
use series::fault::Fault;
use series::form::Series;

/// A series without its trend, every sample multiplied by a scale.
#[derive(Drop)]
pub struct Detrended<S: Series> {
    of: S,
    scale: u64,
    delta: i64,
    ghost enough: { 2 ≤ (S.seen of).size },
    ghost scaled: { scale ≡ scale_of (S.seen of).size },
    ghost risen: { delta ≡ rise (S.seen of).size (samples (S.seen of)) },
    ghost near: { 5 * scale_of (S.seen of).size * (S.seen of).bound ≤ farthest },
}

// The sum of some samples in a row, by a place and a count as a window's. (As a fold, the bound of the sum stayed open.)
fn sum<S: Series>(s: &S, first: usize, count: usize) -> Result<i64, Fault>
    requires { first + count ≤ (S.seen s.now).size }
    ensures is { result ≡ Ok (sum_z count (onward first (samples (S.seen s.now)))) }
    ensures small { IfOk result (λ total. unsigned_abs total ≤ count * farthest) }
{
    let mut total = 0;
    for place in first..first + count {
        total += s.sample(place)?;
    }
    Ok(total)
}

impl<S: Series> Detrended<S> {
    /// A series of two samples or more without its trend.
    pub fn new(of: S) -> Result<Detrended<S>, Fault>
    where
        S: Drop,
        ensures { through ⟦<Detrended<S> as Series>⟧.seen result ≡ detrended_of (S.seen of) }
    {
        let length = of.length();
        let half = length / 2;
        let scale = (half * (length - half)) as u64;
        accept(length >= 2, 5 * scale * of.reach())?;
        // the sum of the last half less that of the first; at an odd length the middle sample is in neither
        let delta = sum(&of, length - half, half)? - sum(&of, 0, half)?;
        Ok(Detrended { of, scale, delta })
    }
}

impl<S: Series> Series for Detrended<S> {
    ghost seen = { λ d. detrended (S.seen d.of) };

    ghost laws = { all (λ d. detrended-Lawful (S.seen d.of) (one S.laws d.of) d.near) };

    fn length(&self) -> usize {
        self.of.length()
    }

    fn reach(&self) -> u64 {
        5 * self.scale * self.of.reach()
    }

    fn sample(&self, place: usize) -> Result<i64, Fault> {
        let sample = self.of.sample(place)?;
        Ok(self.scale as i64 * sample - self.delta * place as i64)
    }
}
