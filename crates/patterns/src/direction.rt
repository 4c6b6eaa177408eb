//! The order in which two runs are compared.

/// Where the comparison of two runs begins: at the first element, or at the last.
#[derive(Clone, Copy, PartialEq, Eq, Debug)]
pub enum Direction {
    /// From the first element on.
    FirstOn,
    /// From the last element back.
    LastOn,
}
