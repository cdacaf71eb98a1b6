// A series between two mirrors that repeat its end samples.
ghost use Rattle.std.specs.Prelude.{◌≡◌, ◌*◌, ◌≤◌};
ghost use Rattle.series.specs.Limits.{longest};
ghost use Rattle.series.specs.Seen.{all, one};
ghost use Rattle.layers.specs.Layers.{through};
ghost use Rattle.mirrors.specs.Mirrors.{even_mirrored, even_shape, even_mirror_of};
ghost use Rattle.mirrors.specs.Series.{even_mirror-Lawful};

use layers::accept::accept;
use series::fault::Fault;
use series::form::{LONGEST, Series};

/// A series backwards, forwards and backwards, so that each end sample stands twice.
#[derive(Drop)]
pub struct EvenMirror<S: Series> {
    of: S,
    ghost some: { 1 ≤ (S.seen of).size },
    ghost short: { 3 * (S.seen of).size ≤ longest },
}

impl<S: Series> EvenMirror<S> {
    /// The mirror of a series of one sample or more, where it is not too long.
    pub fn new(of: S) -> Result<EvenMirror<S>, Fault>
    where
        S: Drop,
        ensures { through ⟦<EvenMirror<S> as Series>⟧.seen result ≡ even_mirror_of (S.seen of) }
    {
        let shape = (1..=LONGEST / 3).contains(&of.length());
        accept(shape, of.reach())?;
        Ok(EvenMirror { of })
    }
}

impl<S: Series> Series for EvenMirror<S> {
    ghost seen = { λ d. even_mirrored (S.seen d.of) };

    ghost laws = { all (λ d. even_mirror-Lawful (S.seen d.of) (one S.laws d.of) d.short) };

    fn length(&self) -> usize {
        3 * self.of.length()
    }

    fn reach(&self) -> u64 {
        self.of.reach()
    }

    fn sample(&self, place: usize) -> Result<i64, Fault> {
        if place >= self.length() {
            return Err(Fault::no_such_place(place));
        }
        let n = self.of.length();
        let shown = if place < n {
            n - 1 - place
        } else if place < 2 * n {
            place - n
        } else {
            3 * n - 1 - place
        };
        self.of.sample(shown)
    }
}
