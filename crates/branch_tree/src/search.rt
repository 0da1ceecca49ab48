//! A search over the tree of cases of a model, as long as it goes on.
ghost use Rattle.std.specs.Prelude.{◌≡◌, ◌<◌, All, IfOk, IsOk, List, None, OnErr, Some, ◌∷◌, length};
ghost use Rattle.solve_defs.specs.Path.{a_pivot, an_end, coming};
ghost use Rattle.solve_defs.specs.Ends.{structural_count};
ghost use Rattle.solve_defs.specs.StandardForm.{column_count, shapes_of};
ghost use Rattle.solve_defs.specs.Plain.{Node, Search as SearchDef, begun, finished, node_turn, outcome, pivot_turn, start, turn};
ghost use Rattle.solve_defs.specs.declared.cut.Cut.{Cut as CutDef};
ghost use Rattle.solve_defs.specs.declared.status.TheConstants.{INTERRUPTED as Interrupted};
ghost use Rattle.simplex_rule.specs.OnPath.{IsOnPath};
ghost use Rattle.bland_rule.specs.Comes.{coming_of, entering_of};
ghost use Rattle.std_form.specs.Cuts.{IsCutOf};
ghost use Rattle.branch_tree.specs.Counted.{IsCounted, stopped_by};
ghost use Rattle.branch_tree.specs.Findings.{HasCutsOf, turn_by};
ghost use Rattle.branch_tree.specs.Stage.{Makes, begun_as, progress_of};

use crate::cases::Cases;
use crate::counts::{Counts, Stop};
use crate::done::Done;
use crate::ends::{best, pointless, unbounded};
use crate::finding::Finding;
use crate::step::Step;
use base_names::{NoMemory, OrMemory, Seq};
use bland_rule::{Coming, Entering};
use model_data::{Cert, CertNode, Outcome, Params, Point, SoundModel};
use simplex_rule::LpRun;
use solve_defs::{Cut, INFEASIBLE, INTERRUPTED, LpEnd, NODE_LIMIT, OPTIMAL};
use std::alloc::Global;
use std::marker::Model;
use std::mem;
use std_form::{StdFault, to_std};

/// A search of a model's best point, from node to node.
#[derive(Debug, Drop)]
pub(crate) struct Search {
    pub(crate) model: SoundModel,
    pub(crate) params: Params,
    pub(crate) counts: Counts,
    /// The best point so far.
    pub(crate) incumbent: Option<Point>,
    /// The finished nodes, each one before those below it.
    pub(crate) tree: Vec<CertNode>,
    pub(crate) cases: Cases,
    /// The relaxation of the node under way. Before the first turn there is none.
    pub(crate) run: Option<LpRun>,
}

impl Model for Search {
    ghost use Rattle.branch_tree.specs.Stage.{Stage};
    ghost use Rattle.branch_tree.specs.Under.{IsSound, stage_of};

    ghost Value = { Stage };

    ghost view = { stage_of };

    ghost invariant = { IsSound };
}

impl Search {
    /// Before the first turn. It takes no memory.
    pub(crate) fn start(alloc: Global, model: SoundModel, params: Params) -> Search
        ensures { result ≡ record { model = model.model; params = params; search = start } }
    {
        Search {
            model,
            params,
            counts: Counts {
                pivots: 0,
                nodes: 0,
                work: 0,
            },
            incumbent: None,
            tree: Vec::new(alloc),
            cases: Cases::root(alloc),
            run: None,
        }
    }

    /// The model, with what laws on searches ask of it.
    pub(crate) fn model(&self) -> &SoundModel
        ensures { result.now.model ≡ self.now.model }
    {
        &self.model
    }

    /// One turn. After want of memory the search is as before.
    pub(crate) fn turn(&mut self, alloc: Global) -> Result<Step, NoMemory>
        ensures turn { IfOk result (λ step. Makes (turn self.old.model self.old.params self.old.search) step self.old self.new) }
        ensures same { OnErr result (self.new ≡ self.old) }
    {
        if self.run.is_some() {
            self.node_turn(alloc)
        } else {
            self.first_turn(alloc)
        }
    }

    /// The root begins, and then a turn is made there.
    fn first_turn(&mut self, alloc: Global) -> Result<Step, NoMemory>
        requires { self.old.search.node ≡ None }
        ensures turn { IfOk result (λ step. Makes (turn self.old.model self.old.params self.old.search) step self.old self.new) }
        ensures same { OnErr result (self.new ≡ self.old) }
    {
        let root = Cases::root(alloc);
        match self.ready(alloc, self.counts, root.own())? {
            Ok(run) => {
                self.cases = root;
                self.run = Some(run);
                match self.node_turn(alloc) {
                    Ok(step) => Ok(step),
                    Err(no_memory) => {
                        self.run = None;
                        Err(no_memory)
                    }
                }
            }
            Err(stop) => Ok(Step::silent(self.stopped(stop))),
        }
    }

    /// A turn of the node under way: its next pivot, or what its end makes of it.
    fn node_turn(&mut self, alloc: Global) -> Result<Step, NoMemory>
        requires { (node : Node) × (self.old.search.node ≡ Some node) }
        ensures turn { IfOk result (λ step. (node : Node) → self.old.search.node ≡ Some node
            → Makes (node_turn self.old.model self.old.params self.old.search node (coming node.dictionary)) step self.old self.new) }
        ensures same { OnErr result (self.new ≡ self.old) }
    {
        match self.coming() {
            Coming::Pivot(entering) => Ok(self.pivot_turn(entering)),
            Coming::End(end) => {
                let found = self.found(alloc, end)?;
                self.finish(alloc, found)
            }
        }
    }

    /// What comes next at the node under way.
    fn coming(&self) -> Coming
        requires { (node : Node) × (self.now.search.node ≡ Some node) }
        ensures { (node : Node) → self.now.search.node ≡ Some node → coming_of result ≡ coming node.dictionary }
    {
        let Some(run) = &self.run else {
            unreachable!();
        };
        run.coming()
    }

    /// The pivot that comes next at the node under way, within its limits. It takes no memory.
    fn pivot_turn(&mut self, entering: Entering) -> Step
        requires { (node : Node) × (self.old.search.node ≡ Some node) × (coming node.dictionary ≡ a_pivot (entering_of entering)) }
        ensures { (node : Node) → self.old.search.node ≡ Some node
            → Makes (pivot_turn self.old.params self.old.search node (entering_of entering)) result self.old self.new }
    {
        let Some(run) = &mut self.run else {
            unreachable!();
        };
        match self.counts.pivot_turn(run, &self.params, entering) {
            Ok(simplex) => Step::pivot(simplex),
            Err(stop) => {
                self.run = None;
                Step::silent(self.stopped(stop))
            }
        }
    }

    /// What the end of its relaxation makes of the node under way.
    fn found(&self, alloc: Global, end: LpEnd) -> Result<Finding, NoMemory>
        requires { (node : Node) × (self.now.search.node ≡ Some node) × (coming node.dictionary ≡ an_end end) }
        ensures turn { IfOk result (λ found. (node : Node) → self.now.search.node ≡ Some node
            → turn_by self.now.model self.now.params self.now.search node.cuts found
            ≡ node_turn self.now.model self.now.params self.now.search node (an_end end)) }
        ensures cuts { IfOk result (HasCutsOf (length self.now.model.vars)) }
    {
        let Some(run) = &self.run else {
            unreachable!();
        };
        let cuts = self.cases.own();
        let t = run.tableau();
        match end {
            LpEnd::Best => best(alloc, &self.model, cuts, t, &self.incumbent),
            LpEnd::NoPoint => pointless(alloc, &self.model, cuts, t),
            LpEnd::Unbounded => unbounded(alloc, &self.model, cuts, t),
        }
    }

    /// The relaxation of the node with these cuts, behind these counts, or why the search stops before it.
    #[tactic(auto, using(crate::proofs::Relaxing::opening_columns))]
    pub(crate) fn ready(
        &self,
        alloc: Global,
        counts: Counts,
        cuts: &Vec<Cut>,
    ) -> Result<Result<LpRun, Stop>, NoMemory>
        requires { All (IsCutOf (length self.now.model.vars)) cuts.now.items }
        ensures begun { IfOk result (λ run. (s : SearchDef) (later : List (List CutDef)) → IsCounted counts s
            → begun_as s cuts.now.items later run ≡ begun self.now.model self.now.params s (cuts.now.items ∷ later)) }
        ensures path { IfOk result (λ run. IfOk run IsOnPath) }
        ensures columns { IfOk result (λ run. IfOk run (λ d. structural_count d ≡ column_count (shapes_of self.now.model cuts.now.items))) }
        ensures limit { IfOk result (λ run. IsOk run → counts.nodes < self.now.params.nodes) }
    {
        if counts.nodes >= self.params.nodes {
            return Ok(Err(Stop::at_limit(NODE_LIMIT)));
        }
        match to_std(alloc, &self.model.model, cuts) {
            Ok(form) => Ok(Ok(LpRun::start(alloc, form)?)),
            Err(OrMemory::Fault(StdFault::Wide(wide))) => Ok(Err(Stop::refused(
                counts.pivots,
                wide,
            ))),
            Err(OrMemory::NoMemory) => Err(NoMemory),
        }
    }

    /// The end with the best point so far, and nothing that is claimed of it. It takes no memory.
    pub(crate) fn stopped(&mut self, stop: Stop) -> Done
        ensures done { (s : SearchDef) → progress_of (Some result) s ≡ stopped_by stop self.old.search }
        ensures model { self.new.model ≡ self.old.model }
        ensures params { self.new.params ≡ self.old.params }
    {
        Done {
            outcome: Outcome {
                status: stop.status,
                pivots: self.counts.pivots,
                nodes: self.counts.nodes,
                work: self.counts.work,
                point: self.incumbent.take(),
                wide: stop.wide,
            },
            cert: Cert::Nothing,
        }
    }

    /// The end where no node is left. It takes no memory.
    pub(crate) fn exhausted(&mut self, alloc: Global) -> Done
        ensures done { (s : SearchDef) → progress_of (Some result) s ≡ finished self.old.search }
        ensures model { self.new.model ≡ self.old.model }
        ensures params { self.new.params ≡ self.old.params }
    {
        let status = if self.incumbent.is_some() {
            OPTIMAL
        } else {
            INFEASIBLE
        };
        let tree = mem::replace(&mut self.tree, Vec::new(alloc));
        Done {
            outcome: Outcome {
                status,
                pivots: self.counts.pivots,
                nodes: self.counts.nodes,
                work: self.counts.work,
                point: self.incumbent.take(),
                wide: None,
            },
            cert: Cert::Tree(Seq::of(tree)),
        }
    }

    /// The outcome where the search is cut here. It takes no memory.
    pub(crate) fn cut(self) -> Outcome
        ensures { result ≡ outcome Interrupted self.search self.search.incumbent None }
    {
        Outcome {
            status: INTERRUPTED,
            pivots: self.counts.pivots,
            nodes: self.counts.nodes,
            work: self.counts.work,
            point: self.incumbent,
            wide: None,
        }
    }
}
