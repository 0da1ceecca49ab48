//! What a check of a certificate may answer.
use frac128::Wide;

/// What was looked at. Rows, variables and leaves are numbered from 1, leaves in the order of the tree's text.
#[derive(Clone, Copy, Debug, PartialEq, Eq)]
pub enum Place {
    /// What the outcome and the certificate consist of.
    Shape,
    PointRow(u32),
    PointBound(u32),
    PointInteger(u32),
    PointValue,
    /// A leaf, 0 for a row, 1 for a lower and 2 for an upper bound, and its number.
    LeafSign(u32, u8, u32),
    LeafSum(u32, u32),
    LeafSide(u32),
    RayRow(u32),
    RayBound(u32),
    RayGain,
}

/// What a check of a certificate answers.
#[derive(Clone, Copy, Debug, PartialEq, Eq)]
pub enum Verdict {
    Valid,
    /// The first place that doesn't hold.
    Invalid(Place),
    /// The first operation that doesn't fit, where each place before it holds.
    TooWide(Wide),
}
