// Layers over a made series: each alone at the edges of its shape and reach, and several over one another.
use crate::RUN;
use crate::nested::{mirrored_differences, nest, nested_sample};
use crate::probe::Probe;
use crate::show::{show, show_sample};
use layers::window::Window;
use series::fault::Fault;
use series::form::{FARTHEST, LONGEST, Series};
use std::io;

// What is shown of each pair of two lists' items, in order.
fn each_pair<A: Copy, B: Copy, F: FnMut(A, B) -> io::Result<()>>(
    firsts: &[A],
    seconds: &[B],
    mut show: F,
) -> io::Result<()>
    requires { F.IsAlwaysCallable show }
{
    let pairs = firsts.iter().flat_map(|first| seconds.iter().map(move |second| (*first, *second)));
    for (first, second) in pairs {
        show(first, second)?;
    }
    Ok(())
}

/// A layer that asks for nothing but a series, at every length with every reach.
pub(crate) fn over_each<L: Series + Drop, F: Fn(Probe) -> Result<L, Fault>>(
    rt: &HostRuntime,
    name: &str,
    make: &F,
    lengths: &[usize],
    reaches: &[u64],
) -> io::Result<()>
    requires { F.IsAlwaysCallable make.now }
{
    each_pair(lengths, reaches, |length, reach| {
        println!(rt; "== {name} {length} {reach}")?;
        show(rt, make(Probe::new(length, reach)))
    })
}

fn windows_of(rt: &HostRuntime, s: &Probe, firsts: &[usize], counts: &[usize]) -> io::Result<()> {
    let length = s.length();
    let reach = s.reach();
    each_pair(firsts, counts, |first, count| {
        println!(rt; "== window {length} {reach} {first} {count}")?;
        show(rt, Window::new(s, first, count))
    })
}

/// Windows of every place and count, near the length and near the largest numbers.
pub(crate) fn windows(rt: &HostRuntime) -> io::Result<()> {
    for length in [0, 1, 10] {
        let s = Probe::new(length, 100);
        windows_of(rt, &s, &[0, 1, 3, 9, 10, 11], &[0, 1, 4, 9, 10, 11])?;
    }
    let longest = Probe::new(LONGEST, FARTHEST);
    windows_of(
        rt,
        &longest,
        &[0, 1, 12287, 12288],
        &[1, 12287, 12288, 12289],
    )?;
    let half = 9_223_372_036_854_775_808;
    let ten = Probe::new(10, FARTHEST);
    windows_of(rt, &ten, &[0, 1, half, usize::MAX], &[1, half, usize::MAX])
}

fn nested_samples(rt: &HostRuntime, s: &Probe, first: usize, count: usize) -> io::Result<()> {
    let length = s.length();
    for place in [0, count, count.saturating_mul(3)] {
        println!(rt; "== sample {length} {first} {count} {place}")?;
        show_sample(rt, nested_sample(s, first, count, place))?;
    }
    Ok(())
}

fn nests_of(rt: &HostRuntime, length: usize) -> io::Result<()> {
    let s = Probe::new(length, RUN);
    let firsts = [0, 1, 7, 17, 204];
    let counts = [0, 1, 2, 3, 6, 9, 13, 96, 161, 162, 228, 229];
    each_pair(&firsts, &counts, |first, count| {
        println!(rt; "== nest {length} {first} {count}")?;
        show(rt, nest(&s, first, count))?;
        println!(rt; "== nest of differences {length} {first} {count}")?;
        show(rt, mirrored_differences(&s, first, count))?;
        nested_samples(rt, &s, first, count)
    })
}

/// Windows without their trend between even mirrors, of samples and of differences.
pub(crate) fn nests(rt: &HostRuntime) -> io::Result<()> {
    nests_of(rt, 20)?;
    nests_of(rt, 300)
}
