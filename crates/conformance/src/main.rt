// Works the stored jobs and packed samples, and prints what each answers.
#![tactic(auto)]

use job_text::answer::Answer;
use job_text::report::print_out;
use job_text::whole::work_text;
use series::fault::Fault;
use series::form::Series;
use series::packed::Packed;
use statistics::part::part;
use statistics::read_out::read_out;
use std::{fmt, fs, io};
use variances::avar::Avar;

// One stored job.
fn work_job(rt: &HostRuntime, name: &str) -> anyhow::Result<()> {
    let text = fs::read(rt, name)?;
    let answers = work_text(rt.alloc(), text.as_slice())?;
    let out = print_out(rt.alloc(), answers.as_slice())?;
    rt.print(out.as_str())?;
    Ok(())
}

// A sample, as it is printed here and by `layer_cases`, with which this program shares no crate that prints.
#[derive(Clone, Copy)]
struct Sample(i64);

impl fmt::Display for Sample {
    fn fmt<W: fmt::Write>(&self, f: &mut fmt::Formatter<W>) -> fmt::Result {
        let sample = self.0;
        write!(f, "X {sample}")
    }
}

// An answer, or why it is refused.
fn print<T: fmt::Display + Drop>(rt: &HostRuntime, answer: Result<T, Fault>) -> io::Result<()> {
    match answer {
        Ok(answer) => println!(rt; "{answer}"),
        Err(fault) => println!(rt; "{fault}"),
    }
}

// Part 1 and the read-out of avar at a factor.
fn print_figures<S: Series>(rt: &HostRuntime, s: &S, factor: u64) -> io::Result<()> {
    print(rt, part::<Avar, S>(s, factor, 1).map(Answer::Part))?;
    print(rt, read_out::<Avar, S>(s, factor).map(Answer::ReadOut))
}

// The count and the reach, the first samples and two places past the last, and figures at the factors 0 to 4.
fn print_series<S: Series>(rt: &HostRuntime, s: &S) -> io::Result<()> {
    let length = s.length();
    let reach = s.reach();
    println!(rt; "N {length} {reach}")?;
    for place in 0..length.min(6) {
        print(rt, s.sample(place).map(Sample))?;
    }
    print(rt, s.sample(length).map(Sample))?;
    print(rt, s.sample(4_611_686_018_427_387_904).map(Sample))?;
    for factor in 0..5 {
        print_figures(rt, s, factor)?;
    }
    Ok(())
}

// One store of packed samples.
fn work_packed(rt: &HostRuntime, name: &str) -> anyhow::Result<()> {
    let bytes = fs::read(rt, name)?;
    match Packed::new(bytes.as_slice()) {
        Ok(s) => print_series(rt, &&s)?,
        Err(fault) => println!(rt; "{fault}")?,
    }
    Ok(())
}

// What is done with each of the names that a file lists.
fn each_name<F: Fn(&HostRuntime, &str) -> anyhow::Result<()>>(
    rt: &HostRuntime,
    list: &str,
    work: F,
) -> anyhow::Result<()>
    requires { F.IsAlwaysCallable work }
{
    let names = fs::read_to_string(rt, list)?;
    for name in names.as_str().lines() {
        println!(rt; "== {name}")?;
        work(rt, name)?;
    }
    Ok(())
}

// An error ends it by the kit's crate for the errors of programs, which prints the message.
fn main(rt: HostRuntime) -> anyhow::Result<()> {
    each_name(&rt, "jobs.txt", work_job)?;
    each_name(&rt, "packed.txt", work_packed)
}
