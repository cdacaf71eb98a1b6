// A job, worked line by line.
ghost use Rattle.std.specs.Prelude.{◌≡◌, Ok, Err, IfOk};
ghost use Rattle.series.specs.declared.fault.Cause.TheVariants.{NotInThisState};
ghost use Rattle.series.specs.declared.fault.Layer.TheVariants.{Bench};
ghost use Rattle.series.specs.Faults.{fault};
ghost use Rattle.variances.specs.Names.{model_of};
ghost use Rattle.bench.specs.Calls.{PartAnswered, ReadAnswered};
ghost use Rattle.bench.specs.Runs.{held_by};
ghost use Rattle.std.specs.Fn.{FnOnceReturnsAtMut};
ghost use Rattle.job_text.specs.Jobs.{stage_of, fresh, Asked, OnOpen, Does, Worked};
ghost use Rattle.job_line.specs.declared.lines.Line.{Line as SaidLine};

use crate::answer::Answer;
use bench::run::{OpenRun, ReleasedRun, Run};
use job_line::lines::{Line, parse};
use series::fault::{Cause, Fault, Layer};
use series::form::Series;
use std::alloc::{AllocError, Global};
use variances::avar::Avar;
use variances::name::Variance;

/// A job's run, which is open until it is released. (So a call that either run takes has two arms, over two types.)
#[derive(Drop)]
pub enum Job {
    Open(OpenRun),
    Released(ReleasedRun),
}

// The statistic that a word names, or the job's refusal.
fn statistic(name: &[u8]) -> Result<Variance, Fault>
    ensures { Asked name.now result }
{
    Variance::try_from(name).map_err(|why| Layer::Bench.refusal(why, 0))
}

// A statistic is a type, so a `match` leads to it from the enum, here and below; a table of functions would hand out pointers.
// The part of a statistic.
fn part_of<State>(
    run: &Run<State>,
    which: Variance,
    factor: u64,
    number: u64,
) -> Result<(u64, u64), Fault>
    ensures { PartAnswered (held_by run.now) (model_of which) factor number result (held_by run.now) }
{
    match which {
        Variance::Avar => run.part::<Avar>(factor, number),
    }
}

// The read-out of a statistic.
fn read_out_of<State>(run: &Run<State>, which: Variance, factor: u64) -> Result<u64, Fault>
    ensures { ReadAnswered (held_by run.now) (model_of which) factor result (held_by run.now) }
{
    match which {
        Variance::Avar => run.read_out::<Avar>(factor),
    }
}

// The refusal of a call that a released run does not take.
fn not_open() -> Fault
    ensures { result ≡ fault NotInThisState Bench 0 }
{
    Layer::Bench.refusal(Cause::NotInThisState, 0)
}

impl Job {
    /// A job with an empty run. It may fail for want of memory only.
    pub fn open(heap: Global) -> Result<Job, AllocError>
        ensures { IfOk result (λ job. stage_of job ≡ fresh) }
    {
        let run = OpenRun::open(heap)?;
        Ok(Job::Open(run))
    }

    // What a call answers that only an open run takes, and that leaves it open; a released run refuses it.
    fn on_open<F: FnOnce(&mut OpenRun) -> Result<Answer, Fault>>(
        self,
        call: F,
    ) -> (Job, Result<Answer, Fault>)
        requires { F.IsAlwaysCallable call }
        ensures { OnOpen (FnOnceReturnsAtMut F.FnOnce call) self result.1 result.0 }
    {
        match self {
            Job::Open(mut run) => {
                let answer = call(&mut run);
                (Job::Open(run), answer)
            }
            released => (released, Err(not_open())),
        }
    }

    fn release(self) -> (Job, Result<Answer, Fault>)
        ensures { Does (stage_of self) SaidLine.Release result.1 (stage_of result.0) }
    {
        match self {
            Job::Open(run) => {
                let count = run.length();
                (Job::Released(run.release()), Ok(Answer::Released(count)))
            }
            released => (released, Err(not_open())),
        }
    }

    fn part(&self, name: &[u8], factor: u64, number: u64) -> Result<Answer, Fault>
        ensures { Does (stage_of self.now) (SaidLine.Part name.entry factor number) result (stage_of self.now) }
    {
        let which = statistic(name)?;
        let pair = match self {
            Job::Open(run) => part_of(run, which, factor, number),
            Job::Released(run) => part_of(run, which, factor, number),
        };
        pair.map(Answer::Part)
    }

    fn read_out(&self, name: &[u8], factor: u64) -> Result<Answer, Fault>
        ensures { Does (stage_of self.now) (SaidLine.ReadOut name.entry factor) result (stage_of self.now) }
    {
        let which = statistic(name)?;
        let read_out = match self {
            Job::Open(run) => read_out_of(run, which, factor),
            Job::Released(run) => read_out_of(run, which, factor),
        };
        read_out.map(Answer::ReadOut)
    }

    // What a formed line says.
    fn obey(self, line: Line<'_>) -> (Job, Result<Answer, Fault>)
        ensures { Does (stage_of self) line.entry result.1 (stage_of result.0) }
    {
        match line {
            Line::Add(sample) => self.on_open(|run| run.add(sample).map(Answer::Added)),
            Line::Strike => self.on_open(|run| run.strike().map(Answer::Struck)),
            Line::Release => self.release(),
            Line::Part(name, factor, number) => {
                let answer = self.part(name, factor, number);
                (self, answer)
            }
            Line::ReadOut(name, factor) => {
                let answer = self.read_out(name, factor);
                (self, answer)
            }
        }
    }

    /// Works one line: the job after it, and the answer or why it is refused.
    pub fn work(self, line: &[u8]) -> (Job, Result<Answer, Fault>)
        ensures { Worked (stage_of self) line.now result.1 (stage_of result.0) }
    {
        match parse(line) {
            Ok(said) => self.obey(said),
            Err(malformed) => {
                let place = malformed.place as u64;
                (self, Err(Layer::Bench.refusal(Cause::MalformedLine, place)))
            }
        }
    }
}
