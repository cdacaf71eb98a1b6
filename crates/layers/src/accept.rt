// Whether a layer is accepted.
ghost use Rattle.std.specs.Prelude.{◌≡◌};
ghost use Rattle.layers.specs.Layers.{accepted};

use series::fault::{Cause, Fault, Layer};
use series::form::FARTHEST;

// The makers of layers have one shape and differ in every formula: one maker for all would take length, reach, sample,
// shape and the laws of each as members, and each layer would have to give them.
/// The reach of a layer, or the first refusal that applies to its shape and its reach.
// A flag beside the reach, as the definition has it: each maker would only make an Option of the two for this to take apart.
// (The makers here ask whether, and not for the reach.)
pub fn accept(shape: bool, reach: u64) -> Result<u64, Fault>
    ensures { result ≡ accepted shape reach }
{
    if !shape {
        return Err(Layer::Series.refusal(Cause::NoSuchPlace, 0));
    }
    if reach > FARTHEST {
        return Err(Layer::Series.refusal(Cause::ReachTooLarge, 0));
    }
    Ok(reach)
}
