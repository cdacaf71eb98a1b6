// A series of any length and reach, for the layers to stand on.
ghost use Rattle.std.specs.Prelude.{◌≡◌, ◌≤◌, min};
ghost use Rattle.series.specs.Limits.{longest, farthest};
ghost use Rattle.series.specs.Seen.{all};
ghost use Rattle.layer_cases.specs.Probe.{probe, probe-Lawful};

use series::fault::Fault;
use series::form::{FARTHEST, LONGEST, Series};

/// Samples of both signs that no window, mirror or trend makes alike: at the place k,
/// 5754853343·k² + 13 brought below 2·reach + 1, less the reach. The factor is a prime that passes 2^32 and keeps the product in 64 bits.
#[derive(Drop)]
pub(crate) struct Probe {
    length: usize,
    reach: u64,
    ghost few: { length ≤ longest },
    ghost near: { reach ≤ farthest },
}

impl Probe {
    /// A series of this length and reach, or of the greatest where either is above it.
    pub(crate) fn new(length: usize, reach: u64) -> Probe
        ensures { probe result.length result.reach ≡ probe (min length longest) (min reach farthest) }
    {
        Probe {
            length: length.min(LONGEST),
            reach: reach.min(FARTHEST),
        }
    }
}

impl Series for Probe {
    ghost seen = { λ t. probe t.length t.reach };

    ghost laws = { all (λ t. probe-Lawful t.length t.reach t.few t.near) };

    fn length(&self) -> usize {
        self.length
    }

    fn reach(&self) -> u64 {
        self.reach
    }

    fn sample(&self, place: usize) -> Result<i64, Fault> {
        if place >= self.length {
            return Err(Fault::no_such_place(place));
        }
        let square = place as u64 * place as u64;
        let height = (square * 5_754_853_343 + 13) % (2 * self.reach + 1);
        Ok(height as i64 - self.reach as i64)
    }
}
