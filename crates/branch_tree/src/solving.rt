//! A solve, turn by turn.
ghost use Rattle.std.specs.Prelude.{◌≡◌, IfOk, OnErr, false};
ghost use Rattle.model_data.specs.Lawful.{IsLawful};
ghost use Rattle.solve_defs.specs.Plain.{Search as SearchDef, cut_off, going, start, turn};
ghost use Rattle.node_laws.specs.Bounds.{KeepsBounds};
ghost use Rattle.branch_tree.specs.Bounded.{IsBounded};
ghost use Rattle.branch_tree.specs.Solves.{IsEnded, Tells};

use crate::done::Done;
use crate::search::Search;
use base_names::NoMemory;
use model_data::{Cert, Model as LinearModel, Outcome, Params, SoundModel};
use solve_defs::Events;
use std::alloc::Global;
use std::marker::Model;

/// What one turn tells, and whether it ended the solve.
#[derive(Clone, Copy, Debug, PartialEq, Eq)]
pub struct Turn {
    pub events: Events,
    pub ended: bool,
}

/// A solve of a model. Contracts see the model, the parameters and how far the solve is (`Solve` of `specs/Solves.antt`).
#[derive(Debug, Drop)]
pub struct Solving {
    search: Search,
    done: Option<Done>,
}

impl Model for Solving {
    ghost use Rattle.branch_tree.specs.Solves.{Solve};
    ghost use Rattle.branch_tree.specs.Solver.{solve_of};

    ghost Value = { Solve };

    ghost view = { solve_of };
}

impl Solving {
    /// Before the first turn. Each turn is one pivot, or finishes one node.
    pub fn start(alloc: Global, m: LinearModel, p: Params) -> Result<Solving, NoMemory>
        requires { IsLawful m }
        ensures start { IfOk result (λ solving. (solving.model ≡ m) × (solving.params ≡ p) × (solving.progress ≡ going start)) }
        ensures bounds { IfOk result IsBounded }
    {
        Ok(Solving {
            search: Search::start(alloc, SoundModel::of(m), p),
            done: None,
        })
    }

    /// The model that is solved, with what laws on solves ask of it.
    pub fn model(&self) -> &SoundModel
        ensures { result.now.model ≡ self.now.model }
    {
        self.search.model()
    }

    /// One turn: one pivot, or one node is finished and the next one begins. No turn has ended the solve before.
    ///
    /// It takes memory only where a node is finished, and all of it before it changes anything: after want of memory the solve
    /// is as before.
    ///
    /// A solve that has come from its start stays within the bounds of its model: no limit ends it that is at least the one of
    /// `specs/Limits.antt` of `limit_defs`.
    pub fn advance(&mut self, alloc: Global) -> Result<Turn, NoMemory>
        requires { (s : SearchDef) × (self.old.progress ≡ going s) }
        ensures turn { IfOk result (λ told. (s : SearchDef) → self.old.progress ≡ going s
            → Tells (turn self.old.model self.old.params s) told self.old self.new) }
        ensures goes_on { IfOk result (λ told. told.ended ≡ false → (s : SearchDef) × (self.new.progress ≡ going s)) }
        ensures bounds { IfOk result (λ told. IsBounded self.old → IsBounded self.new) }
        ensures same { OnErr result (self.new ≡ self.old) }
    {
        self.model();
        self.turn(alloc)
    }

    /// The turn by itself.
    #[tactic(auto, using(crate::proofs::Turned::goes_on))]
    fn turn(&mut self, alloc: Global) -> Result<Turn, NoMemory>
        requires { (s : SearchDef) × (self.old.progress ≡ going s) }
        ensures turn { IfOk result (λ told. (s : SearchDef) → self.old.progress ≡ going s
            → Tells (turn self.old.model self.old.params s) told self.old self.new) }
        ensures goes_on { IfOk result (λ told. told.ended ≡ false → (s : SearchDef) × (self.new.progress ≡ going s)) }
        ensures same { OnErr result (self.new ≡ self.old) }
    {
        let step = self.search.turn(alloc)?;
        let ended = step.done.is_some();
        self.done = step.done;
        Ok(Turn {
            events: step.events,
            ended,
        })
    }

    /// How it ended; where no turn has ended it, it comes back.
    pub fn into_done(self) -> Result<Done, Solving>
        ensures end { IsEnded self result }
        ensures bounds { IfOk result (λ done. IsBounded self → KeepsBounds self.model self.params done.outcome) }
    {
        let Some(_) = &self.done else {
            return Err(self);
        };
        Ok(self.done.unwrap())
    }

    /// The solve cut here, with its best point so far. No turn has ended it. It takes no memory.
    pub fn cut(self) -> (Outcome, Cert)
        requires { (s : SearchDef) × (self.progress ≡ going s) }
        ensures { result ≡ ((cut_off self.progress).outcome, (cut_off self.progress).cert) }
    {
        (self.search.cut(), Cert::Nothing)
    }
}
