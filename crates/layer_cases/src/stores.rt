// Layers over packed bytes and over a run.
use crate::nested::{mirrored_differences, nest};
use crate::show::show;
use bench::run::OpenRun;
use layers::differences::Differences;
use layers::window::Window;
use mirrors::even_mirror::EvenMirror;
use mirrors::odd_mirror::OddMirror;
use series::fault::Fault;
use series::form::Series;
use series::packed::Packed;
use std::io;
use trend::detrended::Detrended;

const FIVE_DAYS: [i32; 5] = [108, 50, 220, 468, 329];

const SIGNS: [i32; 11] = [
    -1048576, 7, 1048576, -3, 0, -1048576, 1048575, 12, -99, 5, 1048576,
];

fn odd_of_even<S: Series>(s: &S) -> Result<OddMirror<EvenMirror<&S>>, Fault> {
    OddMirror::new(EvenMirror::new(s)?)
}

// The store that layers are made over, by its name.
#[derive(Clone, Copy)]
struct Over<'a> {
    rt: &'a HostRuntime,
    name: &'a str,
}

impl Over<'_> {
    fn show<L: Series + Drop>(&self, what: &str, made: Result<L, Fault>) -> io::Result<()> {
        let name = self.name;
        println!(self.rt; "== {name} {what}")?;
        show(self.rt, made)
    }

    fn alone<S: Series>(&self, s: &S) -> io::Result<()> {
        self.show("window", Window::new(s, 1, 3))?;
        self.show("differences", Differences::new(s))?;
        self.show("odd", OddMirror::new(s))?;
        self.show("detrended", Detrended::new(s))?;
        self.show("even", EvenMirror::new(s))
    }

    fn over_one_another<S: Series>(&self, s: &S) -> io::Result<()> {
        self.show("nest", nest(s, 2, 3))?;
        self.show("nest of differences", mirrored_differences(s, 1, 3))?;
        self.show("odd of even", odd_of_even(s))
    }

    fn series<S: Series>(&self, s: &S) -> io::Result<()> {
        self.alone(s)?;
        self.over_one_another(s)
    }

    fn packed(&self, samples: &[i32]) -> anyhow::Result<()> {
        let bytes = samples.iter().flat_map(|sample| sample.to_le_bytes());
        let bytes = bytes.collect::<Vec<u8>>(self.rt.alloc())?;
        match Packed::new(bytes.as_slice()) {
            // a lent series, lent
            Ok(s) => self.series(&&s)?,
            Err(fault) => println!(self.rt; "{fault}")?,
        }
        Ok(())
    }

    fn run(&self, samples: &[i32]) -> anyhow::Result<()> {
        let mut run = OpenRun::open(self.rt.alloc())?;
        for sample in samples {
            let _ = run.add(i64::from(*sample));
        }
        self.series(&run)?;
        Ok(())
    }
}

/// Every layer over two lists of samples, packed and in a run.
pub(crate) fn over_stores(rt: &HostRuntime) -> anyhow::Result<()> {
    let over = |name| Over { rt, name };
    over("packed five").packed(&FIVE_DAYS)?;
    over("run five").run(&FIVE_DAYS)?;
    over("packed signs").packed(&SIGNS)?;
    over("run signs").run(&SIGNS)
}
