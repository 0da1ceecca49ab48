//! What the end of a node's relaxation makes of the node.
use base_names::Seq;
use frac128::{Frac, Wide};
use model_data::{CertNode, Point};

/// Both parts of a node that is split: the variable of this place is at most the one number, or at least the other.
#[derive(Clone, Copy, Debug)]
pub(crate) struct Halves {
    pub(crate) place: u32,
    pub(crate) most: i128,
    pub(crate) least: i128,
}

/// What the end of a node's relaxation makes of the node.
#[derive(Debug, Drop)]
pub(crate) enum Finding {
    /// It is closed, with a point that is the best so far where there is one.
    Closed(CertNode, Option<Point>),
    /// It is split.
    Halved(Halves),
    /// The objective rises without bound, from a point in a direction.
    Rising(Seq<Frac>, Seq<Frac>),
    /// That of the relaxation does, where some variable is integer.
    RisingRelaxed,
    /// This operation doesn't fit. The point is the best so far, where there is one.
    TooWide(Wide, Option<Point>),
}
