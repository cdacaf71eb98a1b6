// The samples of a run, in a Vec that has room for all that it may ever hold.
ghost use Rattle.std.specs.Prelude.{ℕ, ◌≤◌, pos, vec_len, vec_capacity, slice_index_or, unsigned_abs};
ghost use Rattle.series.specs.Limits.{fullest, largest};

mod calls;

pub(crate) use calls::in_range;
pub use calls::{FULLEST, LARGEST};

/// The samples of a run, the oldest first.
// No model as a list: the laws of a series are over every value of the type, and a model's value does not carry its invariant.
#[derive(Drop)]
pub struct Store {
    samples: Vec<i64>,
    ghost fits: { vec_len samples ≤ fullest },
    ghost room: { fullest ≤ vec_capacity samples },
    ghost small: { (k : ℕ) → unsigned_abs (slice_index_or samples.items k (pos 0)) ≤ largest },
}
