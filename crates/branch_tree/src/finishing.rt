//! How a node is finished, and the next one begins.
//!
//! Each call makes what it needs memory for before it changes anything, so that after want of memory the search is as before.
ghost use Rattle.std.specs.Prelude.{◌≡◌, ◌∷◌, ◌++◌, [], IfOk, List, OnErr, Some, None, length, option_map, suc};
ghost use Rattle.model_data.specs.declared.solution.Cert.TheVariants.{Nothing};
ghost use Rattle.solve_defs.specs.Plain.{Node, Search as SearchDef, finish, next_node, no_events, node_event, outcome, over, refused, silent, with_finished, with_node};
ghost use Rattle.solve_defs.specs.declared.cut.Cut.{Cut as CutDef};
ghost use Rattle.solve_defs.specs.declared.status.TheConstants.{INF_OR_UNBD as InfOrUnbd, UNBOUNDED as Unbounded};
ghost use Rattle.branch_tree.specs.Counted.{IsCounted};
ghost use Rattle.branch_tree.specs.Findings.{HasCutsOf, sol_of, turn_by, with_point};
ghost use Rattle.branch_tree.specs.Next.{IsReady, kept, next_as, told_of};
ghost use Rattle.branch_tree.specs.Stage.{Makes, progress_of};
ghost use Rattle.branch_tree.specs.declared.finding.Finding.TheVariants.{Halved};

use crate::counts::{Counts, Stop};
use crate::done::Done;
use crate::finding::{Finding, Halves};
use crate::readings::are_continuous;
use crate::search::Search;
use crate::step::Step;
use base_names::NoMemory;
use frac128::Wide;
use model_data::{Cert, CertNode, Model, NodeEvent, Outcome, Point, SolEvent};
use simplex_rule::LpRun;
use solve_defs::{Cut, Events, INF_OR_UNBD, UNBOUNDED};
use std::alloc::Global;

/// What comes behind a finished node.
#[derive(Debug, Drop)]
pub(crate) enum Next {
    /// The node that waits first, with its cuts and its relaxation.
    Node(Vec<Cut>, LpRun),
    /// The search stops before it.
    Stopped(Stop),
    /// No node is left.
    Nothing,
}

impl Search {
    /// The node under way is finished by what was found there.
    pub(crate) fn finish(&mut self, alloc: Global, found: Finding) -> Result<Step, NoMemory>
        requires node { (node : Node) × (self.old.search.node ≡ Some node) }
        requires cuts { HasCutsOf (length self.old.model.vars) found }
        ensures turn { IfOk result (λ step. (node : Node) → self.old.search.node ≡ Some node
            → Makes (turn_by self.old.model self.old.params self.old.search node.cuts found) step self.old self.new) }
        ensures same { OnErr result (self.new ≡ self.old) }
    {
        match found {
            Finding::Closed(node, point) => self.close(alloc, node, point),
            Finding::Halved(halves) => self.halve(alloc, halves),
            Finding::Rising(point, ray) => Ok(Step::silent(self.at_root(
                UNBOUNDED,
                Cert::Ray(point, ray),
            ))),
            Finding::RisingRelaxed => Ok(Step {
                events: self.with_node().events(&self.model.model, &None),
                done: Some(self.at_root(INF_OR_UNBD, Cert::Nothing)),
            }),
            Finding::TooWide(wide, point) => Ok(Step::silent(self.too_wide(wide, point))),
        }
    }

    /// The node under way is closed so, with this best point where there is one, and the node that waits first begins.
    fn close(
        &mut self,
        alloc: Global,
        node: CertNode,
        point: Option<Point>,
    ) -> Result<Step, NoMemory>
        requires { (under : Node) × (self.old.search.node ≡ Some under) }
        ensures turn { IfOk result (λ step. Makes (finish self.old.model self.old.params
            (with_finished (with_point self.old.search point) node []) (sol_of self.old.model self.old.search point)) step self.old self.new) }
        ensures same { OnErr result (self.new ≡ self.old) }
    {
        let counts = self.with_node();
        let next = self.next(alloc, counts)?;
        self.tree.push(node)?;
        let events = counts.events(&self.model.model, &point);
        self.counts = counts;
        keep(&mut self.incumbent, point);
        match next {
            Next::Node(cuts, run) => {
                self.cases.begin_next(cuts);
                self.run = Some(run);
                Ok(Step { events, done: None })
            }
            Next::Stopped(stop) => {
                self.run = None;
                Ok(Step {
                    events,
                    done: Some(self.stopped(stop)),
                })
            }
            Next::Nothing => {
                self.run = None;
                Ok(Step {
                    events,
                    done: Some(self.exhausted(alloc)),
                })
            }
        }
    }

    /// The node under way is split, and its lower part begins.
    fn halve(&mut self, alloc: Global, halves: Halves) -> Result<Step, NoMemory>
        requires node { (node : Node) × (self.old.search.node ≡ Some node) }
        requires cuts { HasCutsOf (length self.old.model.vars) (Halved halves) }
        ensures turn { IfOk result (λ step. (node : Node) → self.old.search.node ≡ Some node
            → Makes (turn_by self.old.model self.old.params self.old.search node.cuts (Halved halves)) step self.old self.new) }
        ensures same { OnErr result (self.new ≡ self.old) }
    {
        let counts = self.with_node();
        self.tree.reserve(1)?;
        let cuts = self.cases.part(alloc, halves.low())?;
        let run = self.ready(alloc, counts, &cuts)?;
        self.cases.begin_part(cuts, halves.high())?;
        self.tree
            .push_reserved(CertNode::Split(halves.place + 1, halves.most));
        let events = counts.events(&self.model.model, &None);
        self.counts = counts;
        match run {
            Ok(run) => {
                self.run = Some(run);
                Ok(Step { events, done: None })
            }
            Err(stop) => {
                self.run = None;
                Ok(Step {
                    events,
                    done: Some(self.stopped(stop)),
                })
            }
        }
    }

    /// What comes behind the node under way, where these are the counts then.
    fn next(&self, alloc: Global, counts: Counts) -> Result<Next, NoMemory>
        requires { (node : Node) × (self.now.search.node ≡ Some node) }
        ensures next { IfOk result (λ next. (s : SearchDef) → IsCounted counts s → s.waiting ≡ self.now.search.waiting
            → next_as s next ≡ next_node self.now.model self.now.params s) }
        ensures ready { IfOk result (IsReady counts self.now) }
    {
        let Some(cuts) = self.cases.next(alloc)? else {
            return Ok(Next::Nothing);
        };
        match self.ready(alloc, counts, &cuts)? {
            Ok(run) => Ok(Next::Node(cuts, run)),
            Err(stop) => Ok(Next::Stopped(stop)),
        }
    }

    /// The counts with the node under way.
    fn with_node(&self) -> Counts
        requires { (node : Node) × (self.now.search.node ≡ Some node) }
        ensures { result ≡ record { pivots = self.now.search.pivots; nodes = suc self.now.search.nodes; work = self.now.search.work } }
    {
        prove!(self.counts.nodes < self.params.nodes);
        Counts {
            nodes: self.counts.nodes + 1,
            ..self.counts
        }
    }

    /// The end at the root, which is finished by it and has no point.
    fn at_root(&self, status: u8, cert: Cert) -> Done
        requires { (node : Node) × (self.now.search.node ≡ Some node) }
        ensures { result ≡ record { outcome = outcome status (with_node self.now.search) None None; cert = cert } }
    {
        let counts = self.with_node();
        Done {
            outcome: Outcome {
                status,
                pivots: counts.pivots,
                nodes: counts.nodes,
                work: counts.work,
                point: None,
                wide: None,
            },
            cert,
        }
    }

    /// The end by an operation that doesn't fit, with this best point where there is one.
    fn too_wide(&mut self, wide: Wide, point: Option<Point>) -> Done
        ensures done { (s : SearchDef) → progress_of (Some result) s ≡ refused self.old.search.pivots wide (with_point self.old.search point) }
        ensures model { self.new.model ≡ self.old.model }
        ensures params { self.new.params ≡ self.old.params }
    {
        let stop = Stop::refused(self.counts.pivots, wide);
        keep(&mut self.incumbent, point);
        self.stopped(stop)
    }
}

impl Counts {
    /// What is told of a node that is finished, of these counts, with this best point where there is one.
    fn events(&self, m: &Model, point: &Option<Point>) -> Events
        ensures { (s : SearchDef) → IsCounted self.now s
            → result ≡ record no_events { sol = told_of m.now s point.now; node = node_event m.now s } }
    {
        if are_continuous(m) {
            return Events {
                simplex: None,
                sol: None,
                node: None,
            };
        }
        Events {
            simplex: None,
            sol: self.sol_event(point),
            node: Some(NodeEvent {
                nodes: self.nodes,
                pivots: self.pivots,
            }),
        }
    }

    fn sol_event(&self, point: &Option<Point>) -> Option<SolEvent>
        ensures { result ≡ option_map (λ p. record { value = p.value; nodes = self.now.nodes; pivots = self.now.pivots }) point.now }
    {
        match point {
            Some(point) => Some(SolEvent {
                value: point.value,
                nodes: self.nodes,
                pivots: self.pivots,
            }),
            None => None,
        }
    }
}

impl Halves {
    ghost use Rattle.branch_tree.specs.Findings.{high_cut, low_cut};

    fn low(&self) -> Cut
        ensures { result ≡ low_cut self.now }
    {
        Cut {
            var: self.place,
            lower: None,
            upper: Some(self.most),
        }
    }

    fn high(&self) -> Cut
        ensures { result ≡ high_cut self.now }
    {
        Cut {
            var: self.place,
            lower: Some(self.least),
            upper: None,
        }
    }
}

/// The best point so far, where there is another one.
fn keep(best: &mut Option<Point>, point: Option<Point>)
    ensures { best.new ≡ kept point best.old }
{
    if let Some(point) = point {
        *best = Some(point);
    }
}
