// Why a line is refused.

/// A line that is not formed, and the place in it where it is refused.
#[derive(Clone, Copy, PartialEq, Eq, Debug)]
pub struct Malformed {
    pub place: usize,
}
