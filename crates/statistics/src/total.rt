// A running total of squares that never wraps.
ghost use Rattle.std.specs.Prelude.{◌≡◌};
ghost use Rattle.statistics.specs.Totals.{grown, TotalLaws};

// The largest size of a root: its square fits a word.
const LARGEST_ROOT: i64 = 4_294_967_295;

/// The total with the root's square added, where root and sum are small enough.
pub fn grow(total: u64, root: i64) -> Option<u64>
    ensures { result ≡ grown total root }
{
    if !(-LARGEST_ROOT..=LARGEST_ROOT).contains(&root) {
        return None;
    }
    let size = root.unsigned_abs();
    total.checked_add(size * size)
}

/// A total that is taken term by term is the sum of all squares, or is refused at the first term where a root or the sum is too large.
pub fn total_laws()
    ensures { TotalLaws }
{}
