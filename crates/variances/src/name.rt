// The statistics by name.
ghost use Rattle.std.specs.Result.{result_ok, IsErr};
ghost use Rattle.std.specs.Prelude.{◌≡◌};
ghost use Rattle.variances.specs.Names.{Named};

use series::fault::Cause;

/// A statistic, chosen at run time.
#[derive(Clone, Copy, PartialEq, Eq, Debug)]
pub enum Variance {
    /// the overlapping Allan variance
    Avar,
}

/// The statistic that a word names, or why none.
impl TryFrom<&[u8]> for Variance {
    type Error = Cause;

    ghost try_from_gives = { λ word r. Named word.now r };

    fn try_from(word: &[u8]) -> Result<Variance, Cause> {
        match word {
            b"avar" => Ok(Variance::Avar),
            _ => Err(Cause::UnknownName),
        }
    }
}
