// What is printed of a series, and of a refusal.
use series::fault::Fault;
use series::form::Series;
use std::io;

// One number of all samples, in their order.
fn checksum<S: Series>(s: &S) -> Result<u64, Fault> {
    (0..s.length()).try_fold(0u64, |found, place| {
        let bits = s.sample(place)?.cast_unsigned();
        Ok(found.wrapping_mul(1_000_003).wrapping_add(bits))
    })
}

/// A sample, or its refusal. (A type for the printed sample, as `conformance` has one for its many, would be longer.)
pub(crate) fn show_sample(rt: &HostRuntime, answer: Result<i64, Fault>) -> io::Result<()> {
    match answer {
        Ok(sample) => println!(rt; "X {sample}"),
        Err(fault) => println!(rt; "{fault}"),
    }
}

// Its length, reach and checksum, then its samples (of a long one, some), and what it answers past its end.
fn show_series<S: Series>(rt: &HostRuntime, s: &S) -> io::Result<()> {
    let length = s.length();
    let reach = s.reach();
    match checksum(s) {
        Ok(found) => println!(rt; "N {length} {reach} {found}")?,
        Err(fault) => println!(rt; "{fault}")?,
    }
    let step = (length / 12).max(1);
    for place in (0..length).step_by(step).take(24) {
        show_sample(rt, s.sample(place))?;
    }
    show_sample(rt, s.sample(length))?;
    show_sample(rt, s.sample(length + 1))?;
    show_sample(rt, s.sample(9_223_372_036_854_775_808))
}

/// What a maker answered: the layer, or why it is refused.
pub(crate) fn show<L: Series + Drop>(rt: &HostRuntime, made: Result<L, Fault>) -> io::Result<()> {
    match made {
        Ok(layer) => show_series(rt, &layer),
        Err(fault) => println!(rt; "{fault}"),
    }
}
