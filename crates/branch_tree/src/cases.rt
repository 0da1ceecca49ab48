//! The cuts of the node under way, and of the nodes that are to begin.
//!
//! A node that waits has the first cuts of the one under way and one more, so that only a depth and a cut are kept of it. The
//! next one to begin is the deepest and stands last. Memory is linear in the depth, and nothing here goes down it by calls.
ghost use Rattle.std.specs.Prelude.{◌≡◌, ◌≤◌, length, take, [], ◌∷◌, ◌++◌, IfOk, List, OnErr, OnOk, option_map};
ghost use Rattle.solve_defs.specs.declared.cut.Cut.{Cut as CutDef};
ghost use Rattle.branch_tree.specs.Waits.{next_of};

use base_names::NoMemory;
use solve_defs::Cut;
use std::alloc::Global;
use std::marker::Model;

/// A node that is to begin: so many cuts of the node under way, and one more.
#[derive(Clone, Copy, Debug)]
pub(crate) struct Waiting {
    depth: usize,
    cut: Cut,
}

/// The cuts of the node under way and of those that are to begin, the next one first.
#[derive(Debug, Drop)]
pub(crate) struct Cases {
    path: Vec<Cut>,
    waiting: Vec<Waiting>,
}

impl Model for Cases {
    ghost use Rattle.branch_tree.specs.Waits.{Open};
    ghost use Rattle.branch_tree.specs.Stack.{IsStacked, open_of};

    ghost Value = { Open };

    ghost view = { open_of };

    ghost invariant = { IsStacked };
}

impl Cases {
    /// The root is under way, which has no cuts, and nothing waits. It takes no memory.
    pub(crate) fn root(alloc: Global) -> Cases
        ensures { result ≡ record { own = []; waiting = [] } }
    {
        Cases {
            path: Vec::new(alloc),
            waiting: Vec::new(alloc),
        }
    }

    /// The cuts of the node under way.
    pub(crate) fn own(&self) -> &Vec<Cut>
        ensures { result.now.items ≡ self.now.own }
    {
        &self.path
    }

    /// The cuts of a part of the node under way.
    pub(crate) fn part(&self, alloc: Global, cut: Cut) -> Result<Vec<Cut>, NoMemory>
        ensures { IfOk result (λ cuts. cuts.items ≡ self.now.own ++ cut ∷ []) }
    {
        above(alloc, self.path.as_slice(), self.path.len(), cut)
    }

    /// The cuts of the node that is to begin next, where one waits.
    pub(crate) fn next(&self, alloc: Global) -> Result<Option<Vec<Cut>>, NoMemory>
        ensures { IfOk result (λ next. option_map (λ cuts. cuts.items) next ≡ next_of self.now.waiting) }
    {
        match self.waiting.last() {
            Some(node) => Ok(Some(above(alloc, self.path.as_slice(), node.depth, node.cut)?)),
            None => Ok(None),
        }
    }

    /// The node that waited first begins, whose cuts are these.
    pub(crate) fn begin_next(&mut self, cuts: Vec<Cut>)
        requires { (later : List (List CutDef)) × (self.old.waiting ≡ cuts.items ∷ later) }
        ensures { (later : List (List CutDef)) → self.old.waiting ≡ cuts.items ∷ later → self.new ≡ record { own = cuts.items; waiting = later } }
    {
        let Some(_begun) = self.waiting.pop() else {
            return;
        };
        self.path = cuts;
    }

    /// A part of the node under way begins, whose cuts are these, and the other one waits.
    pub(crate) fn begin_part(&mut self, cuts: Vec<Cut>, other: Cut) -> Result<(), NoMemory>
        requires { (cut : CutDef) × (cuts.items ≡ self.old.own ++ cut ∷ []) }
        ensures ok { OnOk result (self.new ≡ record { own = cuts.items; waiting = (self.old.own ++ other ∷ []) ∷ self.old.waiting }) }
        ensures same { OnErr result (self.new ≡ self.old) }
    {
        self.waiting.push(Waiting {
            depth: self.path.len(),
            cut: other,
        })?;
        self.path = cuts;
        Ok(())
    }
}

/// The first cuts of a path, so many of them, and one more.
fn above(alloc: Global, path: &[Cut], depth: usize, cut: Cut) -> Result<Vec<Cut>, NoMemory>
    requires { depth ≤ length path.now }
    ensures { IfOk result (λ cuts. cuts.items ≡ take depth path.now ++ cut ∷ []) }
{
    let mut cuts = Vec::with_capacity(alloc, depth + 1)?;
    cuts.extend_from_slice(&path[..depth])?;
    cuts.push(cut)?;
    Ok(cuts)
}
