// What a run's store can do.
ghost use Rattle.std.specs.Prelude.{◌≡◌, [], IfOk, nat_le, unsigned_abs};
ghost use Rattle.series.specs.Limits.{largest};
ghost use Rattle.series.specs.Listed.{listed, held, held-Lawful};
ghost use Rattle.series.specs.Seen.{all};
ghost use Rattle.series.specs.Stored.{Pushed, Popped};

use crate::fault::{Cause, Fault};
use crate::form::Series;
use crate::store::Store;
use std::alloc::{AllocError, Global};

/// How many samples a run holds at most.
pub const FULLEST: usize = 4096;

/// How large a sample may be.
pub const LARGEST: i64 = 1_048_576;

pub(crate) fn in_range(sample: i64) -> bool
    ensures { result ≡ nat_le (unsigned_abs sample) largest }
{
    (-LARGEST..=LARGEST).contains(&sample)
}

impl Store {
    /// An empty store. This is the only call that may fail for want of memory.
    pub fn open(heap: Global) -> Result<Store, AllocError>
        ensures { IfOk result (λ s. held s ≡ []) }
    {
        let samples = Vec::with_capacity(heap, FULLEST)?;
        Ok(Store { samples })
    }

    /// One sample more at the end, and the count then held; or why not.
    pub fn push(&mut self, sample: i64) -> Result<usize, Cause>
        ensures { Pushed (held self.old) sample result (held self.new) }
    {
        let count = self.samples.len();
        if count >= FULLEST {
            return Err(Cause::Full);
        }
        if !in_range(sample) {
            return Err(Cause::OutOfRange);
        }
        self.samples.push_reserved(sample);
        Ok(count + 1)
    }

    /// The newest sample off, and the count then held; none where nothing is held.
    pub fn pop(&mut self) -> Option<usize>
        ensures { Popped (held self.old) result (held self.new) }
    {
        self.samples.pop()?;
        Some(self.samples.len())
    }
}

impl Series for Store {
    ghost seen = { λ s. listed (held s) };

    ghost laws = { all held-Lawful };

    fn length(&self) -> usize {
        self.samples.len()
    }

    fn reach(&self) -> u64 {
        LARGEST as u64
    }

    fn sample(&self, place: usize) -> Result<i64, Fault> {
        let sample = self.samples.get(place).copied();
        sample.ok_or(Fault::no_such_place(place))
    }
}
