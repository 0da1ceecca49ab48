//! Bounds that hold in a part of the search alone.

/// Bounds on the variable of one place, beside its own. A bound of `None` is no bound.
#[derive(Clone, Copy, Debug, PartialEq, Eq)]
pub struct Cut {
    pub var: u32,
    pub lower: Option<i128>,
    pub upper: Option<i128>,
}
