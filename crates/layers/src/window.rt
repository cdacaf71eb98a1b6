// Some samples of a series in a row.
ghost use Rattle.std.specs.Prelude.{◌≡◌, ◌+◌, ◌≤◌};
ghost use Rattle.series.specs.Seen.{all, one};
ghost use Rattle.layers.specs.Layers.{windowed, window_shape, window_of, through};
ghost use Rattle.layers.specs.Series.{window-Lawful};

use crate::accept::accept;
use series::fault::Fault;
use series::form::Series;

/// Some samples of a series in a row.
// A place and a count, as the definition takes them, also where the place past the last is no number: so no range.
#[derive(Drop)]
pub struct Window<S: Series> {
    of: S,
    first: usize,
    count: usize,
    ghost some: { 1 ≤ count },
    ghost inside: { first + count ≤ (S.seen of).size },
}

// Whether there is a sample to see, and the last lies within the length; no sum is taken that could wrap.
fn is_within(length: usize, first: usize, count: usize) -> bool
    ensures { result ≡ window_shape first count length }
{
    (1..=length).contains(&count) && first <= length - count
}

impl<S: Series> Window<S> {
    /// `count` samples from the place `first` on.
    pub fn new(of: S, first: usize, count: usize) -> Result<Window<S>, Fault>
    where
        S: Drop,
        ensures { through ⟦<Window<S> as Series>⟧.seen result ≡ window_of first count (S.seen of) }
    {
        accept(is_within(of.length(), first, count), of.reach())?;
        Ok(Window { of, first, count })
    }
}

impl<S: Series> Series for Window<S> {
    ghost seen = { λ d. windowed d.first d.count (S.seen d.of) };

    ghost laws = { all (λ d. window-Lawful d.first d.count (S.seen d.of) (one S.laws d.of) d.inside) };

    fn length(&self) -> usize {
        self.count
    }

    fn reach(&self) -> u64 {
        self.of.reach()
    }

    fn sample(&self, place: usize) -> Result<i64, Fault> {
        if place >= self.count {
            return Err(Fault::no_such_place(place));
        }
        self.of.sample(self.first + place)
    }
}
