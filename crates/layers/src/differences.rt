// The difference from each sample to the next.
ghost use Rattle.std.specs.Prelude.{◌≡◌, ◌*◌, ◌≤◌};
ghost use Rattle.series.specs.Limits.{farthest};
ghost use Rattle.series.specs.Seen.{all, one};
ghost use Rattle.layers.specs.Layers.{differenced, differences_of, through};
ghost use Rattle.layers.specs.Series.{differences-Lawful};

use crate::accept::accept;
use series::fault::Fault;
use series::form::Series;

/// The difference from each sample of a series to the next.
#[derive(Drop)]
pub struct Differences<S: Series> {
    of: S,
    ghost enough: { 2 ≤ (S.seen of).size },
    ghost near: { 2 * (S.seen of).bound ≤ farthest },
}

impl<S: Series> Differences<S> {
    /// The differences of a series of two samples or more.
    pub fn new(of: S) -> Result<Differences<S>, Fault>
    where
        S: Drop,
        ensures { through ⟦<Differences<S> as Series>⟧.seen result ≡ differences_of (S.seen of) }
    {
        accept(of.length() >= 2, 2 * of.reach())?;
        Ok(Differences { of })
    }
}

impl<S: Series> Series for Differences<S> {
    ghost seen = { λ d. differenced (S.seen d.of) };

    ghost laws = { all (λ d. differences-Lawful (S.seen d.of) (one S.laws d.of) d.enough d.near) };

    fn length(&self) -> usize {
        self.of.length() - 1
    }

    fn reach(&self) -> u64 {
        2 * self.of.reach()
    }

    fn sample(&self, place: usize) -> Result<i64, Fault> {
        if place >= self.length() {
            return Err(Fault::no_such_place(place));
        }
        let here = self.of.sample(place)?;
        let next = self.of.sample(place + 1)?;
        Ok(next - here)
    }
}
