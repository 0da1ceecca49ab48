//! What the parts of a solve tell each other.
use base_names::Seq;
use frac128::Frac;
use model_data::{NodeEvent, SolEvent};

/// How a relaxation ends.
#[derive(Clone, Copy, Debug, PartialEq, Eq)]
pub enum LpEnd {
    /// Its best point is reached.
    Best,
    /// It has no point.
    NoPoint,
    /// Its objective has no bound.
    Unbounded,
}

/// Weights that are read off the last dictionary of a relaxation: of each row, and of each column.
#[derive(Debug, Drop)]
pub struct Duals {
    pub ys: Seq<Frac>,
    pub reduced: Seq<Frac>,
}

/// The columns' values at the last dictionary of an unbounded relaxation, and how they go on from there.
#[derive(Debug, Drop)]
pub struct StdRay {
    pub point: Seq<Frac>,
    pub ray: Seq<Frac>,
}

/// What one turn of a solve tells, in this order.
#[derive(Clone, Copy, Debug, PartialEq, Eq)]
pub struct Events {
    /// How many pivots were made, where they are a multiple of 100.
    pub simplex: Option<u64>,
    pub sol: Option<SolEvent>,
    pub node: Option<NodeEvent>,
}
