// Makes every layer over series of many lengths and reaches, and prints what each answers.
#![tactic(auto)]

mod cases;
mod nested;
mod probe;
mod show;
mod stores;

use cases::{nests, over_each, windows};
use layers::differences::Differences;
use mirrors::even_mirror::EvenMirror;
use mirrors::odd_mirror::OddMirror;
use series::form::FARTHEST;
use series::store::LARGEST;
use std::io;
use stores::over_stores;
use trend::detrended::Detrended;

// the reach of a run and of packed bytes
pub(crate) const RUN: u64 = LARGEST as u64;

// Lengths and reaches on both sides of every edge.
fn one_by_one(rt: &HostRuntime) -> io::Result<()> {
    over_each(
        rt,
        "differences",
        &Differences::new,
        &[0, 1, 2, 3, 4, 12287, 12288],
        &[0, 1, RUN, FARTHEST / 2, FARTHEST / 2 + 1, FARTHEST],
    )?;
    over_each(
        rt,
        "odd",
        &OddMirror::new,
        &[0, 2, 3, 4, 5, 8, 4096, 4097, 4098, 12288],
        &[0, RUN, FARTHEST / 3, FARTHEST / 3 + 1],
    )?;
    over_each(
        rt,
        "detrended",
        &Detrended::new,
        &[0, 1, 2, 3, 4, 5, 6, 7, 227, 228, 229, 12287, 12288],
        &[
            0,
            1,
            364,
            365,
            RUN,
            FARTHEST / 10,
            FARTHEST / 5,
            FARTHEST / 5 + 1,
        ],
    )?;
    over_each(
        rt,
        "even",
        &EvenMirror::new,
        &[0, 1, 2, 3, 4, 4095, 4096, 4097, 12288],
        &[0, RUN, FARTHEST],
    )
}

fn run(rt: &HostRuntime) -> anyhow::Result<()> {
    windows(rt)?;
    one_by_one(rt)?;
    nests(rt)?;
    over_stores(rt)
}

// An error ends it by the kit's crate for the errors of programs, which prints the message.
fn main(rt: HostRuntime) -> anyhow::Result<()> {
    run(&rt)
}
