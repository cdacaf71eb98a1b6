// A run: the samples of one crystal, which an open run takes and a released run keeps.
ghost use Rattle.std.specs.Prelude.{◌≡◌, [], IfOk};
ghost use Rattle.series.specs.Seen.{all};
ghost use Rattle.series.specs.Listed.{listed, held, held-Lawful};
ghost use Rattle.statistics.specs.Model.{Model};
ghost use Rattle.bench.specs.Calls.{Added, Struck, PartAnswered, ReadAnswered};
ghost use Rattle.bench.specs.Runs.{held_by};

use series::fault::{Cause, Fault, Layer};
use series::form::Series;
use series::store::Store;
use statistics::form::Statistic;
use statistics::part::part;
use statistics::read_out::read_out;
use std::alloc::{AllocError, Global};
use std::marker::PhantomData;

/// It takes samples.
#[derive(Clone, Copy)]
pub struct Open;

/// It takes no more samples.
#[derive(Clone, Copy)]
pub struct Released;

/// The time errors of one crystal, in whole counter ticks, one for each sampling interval.
#[derive(Drop)]
pub struct Run<State> {
    store: Store,
    state: PhantomData<State>,
}

/// A run that takes samples.
pub type OpenRun = Run<Open>;

/// A run that was released. It has no add and no strike.
pub type ReleasedRun = Run<Released>;

impl Run<Open> {
    // (Clauses read a run by the samples that it holds, as those of a store do, and for the same reason by no model.)
    /// An empty run. It may fail for want of memory only, and no later call may.
    pub fn open(heap: Global) -> Result<OpenRun, AllocError>
        ensures { IfOk result (λ run. held_by run ≡ []) }
    {
        let store = Store::open(heap)?;
        Ok(Run {
            store,
            state: PhantomData,
        })
    }

    /// One sample more at the end: the count then held.
    pub fn add(&mut self, sample: i64) -> Result<usize, Fault>
        ensures { Added (held_by self.old) sample result (held_by self.new) }
    {
        let place = self.store.length() as u64;
        let pushed = self.store.push(sample);
        pushed.map_err(|why| Layer::Bench.refusal(why, place))
    }

    /// The newest sample off: the count then held.
    pub fn strike(&mut self) -> Result<usize, Fault>
        ensures { Struck (held_by self.old) result (held_by self.new) }
    {
        let popped = self.store.pop();
        popped.ok_or(Layer::Bench.refusal(Cause::NothingToStrike, 0))
    }

    /// The run, which takes no more samples.
    pub fn release(self) -> ReleasedRun
        ensures { held_by result ≡ held_by self }
    {
        let Run { store, .. } = self;
        Run {
            store,
            state: PhantomData,
        }
    }
}

/// What a run answers in either state. (A factor and a part number are two numbers, as in the formulas and in a job line.)
impl<State> Run<State> {
    /// The total and the divisor of a part.
    pub fn part<T: Statistic>(&self, factor: u64, number: u64) -> Result<(u64, u64), Fault>
        ensures { PartAnswered (held_by self.now) T.model factor number result (held_by self.now) }
    {
        part::<T, Store>(&self.store, factor, number)
    }

    /// The read-out of a factor.
    pub fn read_out<T: Statistic>(&self, factor: u64) -> Result<u64, Fault>
        ensures { ReadAnswered (held_by self.now) T.model factor result (held_by self.now) }
    {
        read_out::<T, Store>(&self.store, factor)
    }
}

impl<State> Series for Run<State> {
    ghost seen = { λ r. listed (held r.store) };

    ghost laws = { all (λ r. held-Lawful r.store) };

    fn length(&self) -> usize {
        self.store.length()
    }

    fn reach(&self) -> u64 {
        self.store.reach()
    }

    fn sample(&self, place: usize) -> Result<i64, Fault> {
        self.store.sample(place)
    }
}
