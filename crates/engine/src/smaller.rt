//! The smaller of two values that may be absent.
ghost use Rattle.std.specs.Prelude.{◌≡◌};
ghost use Rattle.engine.specs.Smaller.{smaller_by};

// The smaller of two values, the first where they are equal; the only one where the other is
// absent.
pub(crate) fn smaller<T: Ord + Copy>(a: Option<T>, b: Option<T>) -> Option<T>
    ensures { result ≡ smaller_by T.cmp a b }
{
    match (a, b) {
        (Some(a), Some(b)) => Some(a.min(b)),
        _ => a.or(b),
    }
}
