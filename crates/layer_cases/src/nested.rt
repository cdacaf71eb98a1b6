// Layers over one another, three and four deep.
ghost use Rattle.std.specs.Prelude.{◌≡◌};
ghost use Rattle.series.specs.Faults.{and_then};
ghost use Rattle.layers.specs.Layers.{differences_of, through};
ghost use Rattle.layer_cases.specs.Nested.{nest_of, nested_sample};

use layers::differences::Differences;
use layers::window::Window;
use mirrors::even_mirror::EvenMirror;
use series::fault::Fault;
use series::form::Series;
use trend::detrended::Detrended;

/// A window without its trend between even mirrors.
pub(crate) type Nest<S> = EvenMirror<Detrended<Window<S>>>;

// A place and a count, as a window takes them.
/// The nest over a series, which may be a lent one.
pub(crate) fn nest<S: Series + Drop>(of: S, first: usize, count: usize) -> Result<Nest<S>, Fault>
    ensures { through ⟦<Nest<S> as Series>⟧.seen result ≡ nest_of first count (S.seen of) }
{
    EvenMirror::new(Detrended::new(Window::new(of, first, count)?)?)
}

/// The nest over the differences of a series.
pub(crate) fn mirrored_differences<'a, S: Series>(
    s: &'a S,
    first: usize,
    count: usize,
) -> Result<Nest<Differences<&'a S>>, Fault>
    ensures { through ⟦<Nest<Differences<&'a S>> as Series>⟧.seen result ≡ and_then (differences_of (S.seen s.now)) (nest_of first count) }
{
    nest(Differences::new(s)?, first, count)
}

/// A sample of the nest: the layers above one another are those of the definitions, one applied to the other.
pub(crate) fn nested_sample<S: Series>(
    s: &S,
    first: usize,
    count: usize,
    place: usize,
) -> Result<i64, Fault>
    ensures { result ≡ nested_sample first count place (S.seen s.now) }
{
    nest(s, first, count)?.sample(place)
}
