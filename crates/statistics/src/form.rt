// What a statistic is.
ghost use Rattle.std.specs.Prelude.{◌≡◌};
ghost use Rattle.series.specs.Seen.{Seen};
ghost use Rattle.statistics.specs.declared.blindness.Blindness.{Blindness};
ghost use Rattle.statistics.specs.Model.{Model, accepted, parts_of, admitted, divisor_of, terms_of, total_of, RefusalLaws};

use crate::blindness::Blindness;
use series::fault::{Cause, Fault, Layer};
use series::form::Series;
use series::store::FULLEST;

/// A statistic: a model, which is a formula with its laws, and the calls that answer from it.
pub trait Statistic {
    const BLINDNESS: Blindness;

    ghost BLINDNESS: { Blindness };

    ghost model: { Model };

    /// The formula's blindness, which is the constant.
    fn blind_to() -> Blindness
        ensures model { result ≡ model.formula.blindness }
        ensures constant { result ≡ BLINDNESS };

    /// The number of parts, of a length and a factor.
    fn parts(length: usize, factor: u64) -> Result<u64, Fault>
        ensures { result ≡ parts_of model.formula length factor };

    // A length, a factor and a part number stand side by side here, and a factor and a part number in `bench` and `job_text`,
    // as in the formulas and in a job line: a struct of them would be made and taken apart at every call.
    /// The divisor of a part.
    fn divisor(length: usize, factor: u64, part: u64) -> Result<u64, Fault>
        ensures { result ≡ divisor_of model.formula length factor part };

    /// The number of terms of a part.
    fn terms(length: usize, factor: u64, part: u64) -> Result<u64, Fault>
        ensures { result ≡ terms_of model.formula length factor part };

    /// The total of a part over a series.
    fn total<S: Series>(s: &S, factor: u64, part: u64) -> Result<u64, Fault>
        ensures { result ≡ total_of model.formula (S.seen s.now) factor part };
}

/// The number of parts, or the first refusal that applies to a length and a factor.
// Two flags beside the number of parts, as the definition has them: an Option could not say which of the two fails.
pub fn accept(length: usize, takes: bool, enough: bool, parts: u64) -> Result<u64, Fault>
    ensures { result ≡ accepted length takes enough parts }
{
    if length > FULLEST {
        return Err(Layer::Statistic.refusal(Cause::SeriesTooLong, 0));
    }
    if !takes {
        return Err(Layer::Statistic.refusal(Cause::FactorNotTaken, 0));
    }
    if !enough {
        return Err(Layer::Statistic.refusal(Cause::TooFewSamples, 0));
    }
    Ok(parts)
}

/// The number of parts, where the part is one of them. (It takes what `parts` answers as it is, as the definition does.)
pub fn admit(parts: Result<u64, Fault>, part: u64) -> Result<u64, Fault>
    ensures { result ≡ admitted parts part }
{
    let count = parts?;
    if !(1..=count).contains(&part) {
        return Err(Layer::Statistic.refusal(Cause::NoSuchPart, part));
    }
    Ok(count)
}

/// When each refusal comes, for every formula: too long a series, a factor not taken, too few samples, no such part;
/// and then a total is refused for a layer's reach, or at a term where a root or the sum is too large, and for nothing else.
pub fn refusal_laws()
    ensures { RefusalLaws }
{}
