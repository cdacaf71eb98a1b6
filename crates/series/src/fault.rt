// Why a call is refused, by which part, and at which place.
ghost use Rattle.std.specs.Prelude.{◌≡◌, Some};
ghost use Rattle.series.specs.declared.fault.Cause.{Cause};
ghost use Rattle.series.specs.declared.fault.Cause.TheVariants.{NoSuchPlace};
ghost use Rattle.series.specs.declared.fault.Layer.TheVariants.{Series};
ghost use Rattle.series.specs.Faults.{cause_number, layer_number, fault, shown_fault};

use std::fmt;

/// Why a call is refused. The numbers are those that the job text and the controller show.
#[derive(Clone, Copy, PartialEq, Eq, Debug)]
pub enum Cause {
    OutOfRange = 1,
    Full = 2,
    NothingToStrike = 3,
    SeriesTooLong = 4,
    FactorNotTaken = 5,
    TooFewSamples = 6,
    NoSuchPart = 7,
    TotalTooLarge = 8,
    ReachTooLarge = 9,
    NoSuchPlace = 10,
    TooLittleRoom = 11,
    NoFigure = 12,
    MalformedBytes = 13,
    NoSuchNoise = 14,
    MalformedLine = 15,
    NotInThisState = 16,
    UnknownName = 17,
}

impl Cause {
    /// The cause's number, which no other cause has.
    // A method, and no `From<Cause> for u8`: that is the same line, under a name that does not say what the number is.
    pub fn number(self) -> u8
        ensures value { result ≡ cause_number self }
        ensures alone { (other : Cause) → result ≡ cause_number other → self ≡ other }
    {
        self as u8
    }
}

/// The part that refuses.
#[derive(Clone, Copy, PartialEq, Eq, Debug)]
pub enum Layer {
    Series = 1,
    Statistic = 2,
    Bench = 3,
}

impl Layer {
    /// The layer's number.
    // A method, as that of a cause is; a trait over the two would be longer than both.
    pub fn number(self) -> u8
        ensures { result ≡ layer_number self }
    {
        self as u8
    }

    /// The refusal by this part, for a cause and at a place.
    pub fn refusal(self, cause: Cause, place: u64) -> Fault
        ensures { result ≡ fault cause self place }
    {
        Fault {
            cause,
            layer: self,
            place,
        }
    }
}

/// A refusal. It passes up whole, from the part that found it to the caller.
#[derive(Clone, Copy, PartialEq, Eq, Debug)]
pub struct Fault {
    pub cause: Cause,
    pub layer: Layer,
    pub place: u64,
}

impl Fault {
    /// A series has no sample at this place.
    pub fn no_such_place(place: usize) -> Fault
        ensures { result ≡ fault NoSuchPlace Series place }
    {
        Layer::Series.refusal(Cause::NoSuchPlace, place as u64)
    }
}

/// The numbers of cause and layer, and the place.
impl fmt::Display for Fault {
    ghost output = { λ f. Some (shown_fault f) };

    fn fmt<W: fmt::Write>(&self, f: &mut fmt::Formatter<W>) -> fmt::Result {
        let cause = self.cause.number();
        let layer = self.layer.number();
        let place = self.place;
        write!(f, "! {cause} {layer} {place}")
    }
}
