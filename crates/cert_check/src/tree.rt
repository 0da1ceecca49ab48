//! The tree of cases.
ghost use Rattle.std.specs.Prelude.{◌≡◌, ◌<◌, ◌^◌, [], ◌∷◌, ◌++◌, IsTrue, length, List, map, OnOk, replicate, suc, unsigned_abs};
ghost use Rattle.std.specs.List.{list_all};
ghost use Rattle.frac128.specs.Numbers.{limit};
ghost use Rattle.model_data.specs.Lawful.{IsLawful};
ghost use Rattle.model_data.specs.declared.model.Model.{Model as ModelDef};
ghost use Rattle.solve_defs.specs.Bounds.{effective_bounds};
ghost use Rattle.solve_defs.specs.Certificates.{Subtree, above, halves, is_node_for, tree_looks, under};
ghost use Rattle.solve_defs.specs.Looks.{verdict_of};
ghost use Rattle.solve_defs.specs.Values.{whole};
ghost use Rattle.solve_defs.specs.declared.cut.Cut.{Cut};
ghost use Rattle.cert_check.specs.Found.{Finds, verdict_by};
ghost use Rattle.cert_check.specs.Leaves.{Fit, claim_by, looks_within};
ghost use Rattle.cert_check.specs.Sums.{no_sum};
ghost use Rattle.cert_check.specs.Walks.{CanEnter, Enters, IsOnWay, IsToCome, Leads, ahead, at_node, situation_of};

use crate::bounds::Bounds;
use crate::cases::{Cases, Entry};
use crate::claim::Claim;
use crate::failure::Failure;
use crate::leaf::leaf_looks;
use crate::sums::Sums;
use base_names::{NoMemory, OrMemory};
use frac128::Frac;
use model_data::{CertNode, Model, Weights};
use std::alloc::Global;

/// A tree on the way through its nodes.
#[derive(Debug, Drop)]
struct Walk {
    cases: Cases,
    sums: Sums,
    /// So many leaves are done.
    leaves: u32,
    /// No point is to be better than this value.
    value: Frac,
}

/// Each leaf in order, and what is formed on the way to it. The variables have these bounds.
pub(crate) fn tree_looks(
    alloc: Global,
    m: &Model,
    bounds: Vec<Bounds>,
    value: &Frac,
    nodes: &[CertNode],
) -> Result<(), OrMemory<Failure>>
    requires lawful { IsLawful m.now }
    requires bounds { bounds.items ≡ effective_bounds m.now [] }
    requires nodes { IsTrue (list_all (is_node_for m.now) nodes.now) }
    requires few { length nodes.now < 2 ^ 32 }
    ensures { Finds result (verdict_of (tree_looks m.now value.now 1 (under [] ∷ []) nodes.now)) }
{
    let mut walk = Walk {
        cases: Cases::of(alloc, bounds)?,
        sums: Sums::zeros(alloc, m.vars.len())?,
        leaves: 0,
        value: *value,
    };
    for node in nodes {
        walk.node(m, node)?;
    }
    Ok(())
}

impl Walk {
    /// The next node, where a case is to come.
    fn node(&mut self, m: &Model, node: &CertNode) -> Result<(), OrMemory<Failure>>
        requires lawful { IsLawful m.now }
        requires node { IsTrue (is_node_for m.now node.now) }
        requires few { suc self.old.leaves < 2 ^ 32 }
        requires to_come { (subtrees : List Subtree) × IsToCome m.now subtrees self.old }
        ensures { (subtrees : List Subtree) → IsToCome m.now subtrees self.old
            → Leads m.now (λ nodes. ahead m.now self.old subtrees (node.now ∷ nodes)) self.old self.new result }
    {
        match self.cases.next() {
            Some(entry) => self.case(m, node, entry),
            None => Ok(()),
        }
    }

    /// The node of the case under way, which is entered first.
    fn case(&mut self, m: &Model, node: &CertNode, entry: Entry) -> Result<(), OrMemory<Failure>>
        requires lawful { IsLawful m.now }
        requires node { IsTrue (is_node_for m.now node.now) }
        requires few { suc self.old.leaves < 2 ^ 32 }
        requires sums { self.old.sums ≡ replicate (length m.now.vars) no_sum }
        requires enter { CanEnter (length m.now.vars) entry }
        requires bounds { length self.old.cases.bounds ≡ length m.now.vars }
        ensures { (own : Subtree) (later : List Subtree) → situation_of m.now own ≡ record { bounds = self.old.cases.bounds; entry = entry }
            → IsToCome m.now later self.old
            → Leads m.now (λ nodes. ahead m.now self.old (own ∷ later) (node.now ∷ nodes)) self.old self.new result }
    {
        self.enter(entry)?;
        self.visit(m, node)
    }

    /// The case under way begins. In an upper one 1 is added to the number of the split.
    fn enter(&mut self, entry: Entry) -> Result<(), OrMemory<Failure>>
        requires { CanEnter (length self.old.cases.bounds) entry }
        ensures entered { (m : ModelDef) (own : Subtree) → situation_of m own ≡ record { bounds = self.old.cases.bounds; entry = entry }
            → Enters m own self.old self.new result }
        ensures kept { OnOk result (IsOnWay self.old self.new) }
    {
        match entry {
            Entry::Here => Ok(()),
            Entry::Above(place, k) => self.enter_above(place, k),
        }
    }

    fn enter_above(&mut self, place: u32, k: i128) -> Result<(), OrMemory<Failure>>
        requires place { place < length self.old.cases.bounds }
        requires small { unsigned_abs k < limit }
        ensures entered { (m : ModelDef) (cuts : List Cut) → self.old.cases.bounds ≡ effective_bounds m cuts
            → Enters m (above cuts place k) self.old self.new result }
        ensures kept { OnOk result (IsOnWay self.old self.new) }
    {
        let least = whole(k)
            .checked_add(&Frac::one())
            .map_err(Failure::TooWide)?;
        Ok(self.cases.cut(place, &Bounds::of(Some(least), None))?)
    }

    /// The node of the case under way.
    fn visit(&mut self, m: &Model, node: &CertNode) -> Result<(), OrMemory<Failure>>
        requires lawful { IsLawful m.now }
        requires node { IsTrue (is_node_for m.now node.now) }
        requires few { suc self.old.leaves < 2 ^ 32 }
        requires sums { self.old.sums ≡ replicate (length m.now.vars) no_sum }
        requires bounds { length self.old.cases.bounds ≡ length m.now.vars }
        ensures { (cuts : List Cut) (later : List Subtree) → self.old.cases.bounds ≡ effective_bounds m.now cuts → IsToCome m.now later self.old
            → Leads m.now (at_node m.now self.old cuts later node.now) self.old self.new result }
    {
        match node {
            CertNode::Split(var, k) => Ok(self.split(*var - 1, *k)?),
            CertNode::Bound(weights) => {
                Ok(self.leaf(m, &Claim::NoneBetter(self.value), weights)?)
            }
            CertNode::Farkas(weights) => Ok(self.leaf(m, &Claim::NoPoint, weights)?),
        }
    }

    /// Two cases are to come in place of the one under way, first the lower one.
    fn split(&mut self, place: u32, k: i128) -> Result<(), NoMemory>
        requires place { place < length self.old.cases.bounds }
        requires small { unsigned_abs k < limit }
        ensures later { OnOk result ((m : ModelDef) (cuts : List Cut) → self.old.cases.bounds ≡ effective_bounds m cuts
            → self.new.cases.later ≡ map (situation_of m) (halves cuts place k) ++ self.old.cases.later) }
        ensures same { OnOk result (self.new ≡ record self.old { cases = self.new.cases }) }
    {
        self.cases.wait(Entry::Above(place, k))?;
        self.cases.cut(place, &Bounds::of(None, Some(whole(k))))?;
        self.cases.wait(Entry::Here)
    }

    fn leaf(&mut self, m: &Model, claim: &Claim, weights: &Weights) -> Result<(), Failure>
        requires lawful { IsLawful m.now }
        requires weights { Fit m.now weights.now }
        requires few { suc self.old.leaves < 2 ^ 32 }
        requires sums { self.old.sums ≡ replicate (length m.now.vars) no_sum }
        requires bounds { length self.old.cases.bounds ≡ length m.now.vars }
        ensures looks { verdict_by result ≡ verdict_of (looks_within m.now self.old.cases.bounds (suc self.old.leaves) (claim_by m.now claim.now) weights.now) }
        ensures again { OnOk result (self.new ≡ record self.old { leaves = suc self.old.leaves }) }
    {
        leaf_looks(
            m,
            self.cases.bounds(),
            &mut self.sums,
            self.leaves + 1,
            claim,
            weights,
        )?;
        self.leaves += 1;
        Ok(())
    }
}

fn whole(n: i128) -> Frac
    requires { unsigned_abs n < limit }
    ensures { result ≡ whole n }
{
    Frac::make(n, 1).unwrap()
}
