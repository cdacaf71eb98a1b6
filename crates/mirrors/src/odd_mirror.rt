// A series between its reflections in both end samples.
ghost use Rattle.std.specs.Prelude.{◌≡◌, ◌-◌, ◌*◌, ◌≤◌, unsigned_abs};
ghost use Rattle.algebra.specs.Mirrors.{about};
ghost use Rattle.series.specs.Limits.{longest, farthest};
ghost use Rattle.series.specs.Seen.{all, one};
ghost use Rattle.layers.specs.Layers.{through};
ghost use Rattle.mirrors.specs.Mirrors.{odd_mirrored, odd_shape, odd_mirror_of};
ghost use Rattle.mirrors.specs.Series.{odd_mirror-Lawful};

use layers::accept::accept;
use series::fault::Fault;
use series::form::{LONGEST, Series};

/// A series between its reflections in its first and its last sample, which are not repeated.
#[derive(Drop)]
pub struct OddMirror<S: Series> {
    of: S,
    ghost enough: { 3 ≤ (S.seen of).size },
    ghost short: { 3 * (S.seen of).size - 4 ≤ longest },
    ghost near: { 3 * (S.seen of).bound ≤ farthest },
}

// A sample reflected in an end sample. (In place, the two reflections left the value of the sample open.)
fn reflect(end: i64, sample: i64) -> i64
    requires { (unsigned_abs end ≤ farthest) × (unsigned_abs sample ≤ farthest) }
    ensures { result ≡ about end sample }
{
    2 * end - sample
}

impl<S: Series> OddMirror<S> {
    /// The mirror of a series of three samples or more, where it is not too long.
    pub fn new(of: S) -> Result<OddMirror<S>, Fault>
    where
        S: Drop,
        ensures { through ⟦<OddMirror<S> as Series>⟧.seen result ≡ odd_mirror_of (S.seen of) }
    {
        let shape = (3..=(LONGEST + 4) / 3).contains(&of.length());
        accept(shape, 3 * of.reach())?;
        Ok(OddMirror { of })
    }
}

impl<S: Series> Series for OddMirror<S> {
    ghost seen = { λ d. odd_mirrored (S.seen d.of) };

    ghost laws = { all (λ d. odd_mirror-Lawful (S.seen d.of) (one S.laws d.of) d.enough d.short d.near) };

    fn length(&self) -> usize {
        3 * self.of.length() - 4
    }

    fn reach(&self) -> u64 {
        3 * self.of.reach()
    }

    fn sample(&self, place: usize) -> Result<i64, Fault> {
        if place >= self.length() {
            return Err(Fault::no_such_place(place));
        }
        let n = self.of.length();
        if place < n - 2 {
            Ok(reflect(self.of.sample(0)?, self.of.sample(n - 2 - place)?))
        } else if place < 2 * n - 2 {
            self.of.sample(place - (n - 2))
        } else {
            Ok(reflect(self.of.sample(n - 1)?, self.of.sample(3 * n - 4 - place)?))
        }
    }
}
