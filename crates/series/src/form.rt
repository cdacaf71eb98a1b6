// What a series is.
ghost use Rattle.std.specs.Prelude.{◌≡◌};
ghost use Rattle.series.specs.Seen.{Seen, Laws, all, one, sample_of};

use crate::fault::Fault;

/// How many samples a series has at most.
pub const LONGEST: usize = 12_288;

/// How far a series reaches at most, 2^36.
pub const FARTHEST: u64 = 68_719_476_736;

/// A list of whole numbers and a reach that no sample's size exceeds.
/// Each call answers from that meaning, always alike, and leaves the series as it is.
pub trait Series {
    ghost seen: { Self → Seen };

    ghost laws: { Laws seen };

    fn length(&self) -> usize
        ensures { result ≡ (seen self.now).size };

    fn reach(&self) -> u64
        ensures { result ≡ (seen self.now).bound };

    // Each series tests the place itself: an inner read that need not would have a precondition, which a caller had to meet.
    /// The sample at a place, from 0.
    fn sample(&self, place: usize) -> Result<i64, Fault>
        ensures { result ≡ sample_of (seen self.now) place };
}

/// A reference to a series is a series.
impl<'a, S: Series> Series for &'a S {
    ghost seen = { λ d. S.seen d.now };

    ghost laws = { all (λ d. one S.laws d.now) };

    fn length(&self) -> usize {
        (**self).length()
    }

    fn reach(&self) -> u64 {
        (**self).reach()
    }

    fn sample(&self, place: usize) -> Result<i64, Fault> {
        (**self).sample(place)
    }
}
