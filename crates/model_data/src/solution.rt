//! What a solve finds: a point, an outcome, a certificate, and the events on the way.
ghost use Rattle.std.specs.Prelude.{◌≡◌, IfOk};

use base_names::{NoMemory, Seq, TryCopy};
use frac128::{Frac, Wide};
use std::alloc::Global;

/// The values of the variables, by their places, and that of the objective.
#[derive(Debug, Drop, PartialEq, Eq)]
pub struct Point {
    pub xs: Seq<Frac>,
    pub value: Frac,
}

/// An operation that doesn't fit, with the number of pivots that had begun.
#[derive(Clone, Copy, Debug, PartialEq, Eq)]
pub struct WideAt {
    pub at: u64,
    pub wide: Wide,
}

/// How a solve ended, with the counts of what it did.
#[derive(Debug, Drop, PartialEq, Eq)]
pub struct Outcome {
    pub status: u8,
    pub pivots: u64,
    pub nodes: u64,
    pub work: u64,
    pub point: Option<Point>,
    pub wide: Option<WideAt>,
}

/// The weight of one row or bound.
#[derive(Clone, Copy, Debug, PartialEq, Eq)]
pub struct Weight {
    pub place: u32,
    pub weight: Frac,
}

/// The weights of rows, of lower bounds and of upper bounds. The others are 0.
#[derive(Debug, Drop, PartialEq, Eq)]
pub struct Weights {
    pub rows: Seq<Weight>,
    pub lows: Seq<Weight>,
    pub ups: Seq<Weight>,
}

/// A node of the tree of cases, from the root on, each followed by the nodes below it.
#[derive(Debug, Drop, PartialEq, Eq)]
pub enum CertNode {
    /// Two cases of the variable of this number, counted from 1: it is at most the bound, or at least one more.
    Split(u32, i128),
    /// No point of the case is better than the one that is kept.
    Bound(Weights),
    /// The case has no point.
    Farkas(Weights),
}

/// Why an outcome is right.
#[derive(Debug, Drop, PartialEq, Eq)]
pub enum Cert {
    Nothing,
    /// A point, and a direction in which the objective gets better without end.
    Ray(Seq<Frac>, Seq<Frac>),
    Tree(Seq<CertNode>),
}

/// A better point was found.
#[derive(Clone, Copy, Debug, PartialEq, Eq)]
pub struct SolEvent {
    pub value: Frac,
    pub nodes: u64,
    pub pivots: u64,
}

/// A node was done.
#[derive(Clone, Copy, Debug, PartialEq, Eq)]
pub struct NodeEvent {
    pub nodes: u64,
    pub pivots: u64,
}

impl Point {
    /// An equal point.
    pub fn copy(&self, alloc: Global) -> Result<Point, NoMemory>
        ensures { IfOk result (λ copy. copy ≡ self.now) }
    {
        Ok(Point {
            xs: self.xs.copy(alloc)?,
            value: self.value,
        })
    }
}

impl TryCopy for Point {
    fn try_copy(&self, alloc: Global) -> Result<Point, NoMemory> {
        self.copy(alloc)
    }
}

impl Outcome {
    /// An equal outcome.
    pub fn copy(&self, alloc: Global) -> Result<Outcome, NoMemory>
        ensures { IfOk result (λ copy. copy ≡ self.now) }
    {
        let point = match &self.point {
            Some(point) => Some(point.copy(alloc)?),
            None => None,
        };
        Ok(Outcome {
            status: self.status,
            pivots: self.pivots,
            nodes: self.nodes,
            work: self.work,
            point,
            wide: self.wide,
        })
    }
}

impl TryCopy for Outcome {
    fn try_copy(&self, alloc: Global) -> Result<Outcome, NoMemory> {
        self.copy(alloc)
    }
}

impl Weights {
    /// Equal weights.
    pub fn copy(&self, alloc: Global) -> Result<Weights, NoMemory>
        ensures { IfOk result (λ copy. copy ≡ self.now) }
    {
        Ok(Weights {
            rows: self.rows.copy(alloc)?,
            lows: self.lows.copy(alloc)?,
            ups: self.ups.copy(alloc)?,
        })
    }
}

impl TryCopy for Weights {
    fn try_copy(&self, alloc: Global) -> Result<Weights, NoMemory> {
        self.copy(alloc)
    }
}

impl CertNode {
    /// An equal node.
    pub fn copy(&self, alloc: Global) -> Result<CertNode, NoMemory>
        ensures { IfOk result (λ copy. copy ≡ self.now) }
    {
        match self {
            CertNode::Split(var, at) => Ok(CertNode::Split(*var, *at)),
            CertNode::Bound(weights) => Ok(CertNode::Bound(weights.copy(alloc)?)),
            CertNode::Farkas(weights) => Ok(CertNode::Farkas(weights.copy(alloc)?)),
        }
    }
}

impl TryCopy for CertNode {
    fn try_copy(&self, alloc: Global) -> Result<CertNode, NoMemory> {
        self.copy(alloc)
    }
}

impl Cert {
    /// An equal certificate.
    pub fn copy(&self, alloc: Global) -> Result<Cert, NoMemory>
        ensures { IfOk result (λ copy. copy ≡ self.now) }
    {
        match self {
            Cert::Nothing => Ok(Cert::Nothing),
            Cert::Ray(point, direction) => Ok(Cert::Ray(
                point.copy(alloc)?,
                direction.copy(alloc)?,
            )),
            Cert::Tree(nodes) => Ok(Cert::Tree(nodes.copy(alloc)?)),
        }
    }
}

impl TryCopy for Cert {
    fn try_copy(&self, alloc: Global) -> Result<Cert, NoMemory> {
        self.copy(alloc)
    }
}
