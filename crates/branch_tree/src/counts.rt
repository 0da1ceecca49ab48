//! What a search counts, and the limits on it.
ghost use Rattle.std.specs.Prelude.{◌≡◌, ◌+◌, None, Ok, OnOk, Some};
ghost use Rattle.solve_defs.specs.Path.{a_pivot, coming, entry_count, next};
ghost use Rattle.solve_defs.specs.Plain.{Node, Search, pivot_turn};
ghost use Rattle.solve_defs.specs.declared.status.TheConstants.{NUMERIC as Numeric};
ghost use Rattle.bland_rule.specs.Comes.{entering_of};
ghost use Rattle.simplex_rule.specs.OnPath.{IsOnPath};
ghost use Rattle.branch_tree.specs.Counted.{IsCounted, behind_pivot, told, within_limit};

use frac128::Wide;
use model_data::{Params, WideAt};
use simplex_rule::{Entering, LpRun};
use solve_defs::{ITERATION_LIMIT, NUMERIC, WORK_LIMIT};

/// What is finished so far.
#[derive(Clone, Copy, Debug, PartialEq, Eq)]
pub(crate) struct Counts {
    pub(crate) pivots: u64,
    pub(crate) nodes: u64,
    pub(crate) work: u64,
}

/// Why a search stops with its best point so far.
#[derive(Clone, Copy, Debug, PartialEq, Eq)]
pub(crate) struct Stop {
    pub(crate) status: u8,
    pub(crate) wide: Option<WideAt>,
}

impl Stop {
    /// A limit is met.
    pub(crate) fn at_limit(status: u8) -> Stop
        ensures { result ≡ record { status = status; wide = None } }
    {
        Stop { status, wide: None }
    }

    /// An operation doesn't fit, where so many pivots have begun.
    pub(crate) fn refused(at: u64, wide: Wide) -> Stop
        ensures { result ≡ record { status = Numeric; wide = Some record { at = at; wide = wide } } }
    {
        Stop {
            status: NUMERIC,
            wide: Some(WideAt { at, wide }),
        }
    }
}

impl Counts {
    /// A pivot of a search with these counts: what is told of it, or why the search stops. It takes no memory.
    pub(crate) fn pivot_turn(
        &mut self,
        run: &mut LpRun,
        params: &Params,
        entering: Entering,
    ) -> Result<Option<u64>, Stop>
        requires comes { coming run.old ≡ a_pivot (entering_of entering) }
        requires path { IsOnPath run.old }
        ensures turn { (s : Search) (node : Node) → IsCounted self.old s → node.dictionary ≡ run.old
            → told result (behind_pivot self.new run.new s node) ≡ pivot_turn params.now s node (entering_of entering) }
        ensures path { OnOk result (IsOnPath run.new) }
        ensures leads { OnOk result (Ok run.new ≡ next (entering_of entering) run.old) }
        ensures nodes { self.new.nodes ≡ self.old.nodes }
    {
        if self.pivots >= params.iterations {
            return Err(Stop::at_limit(ITERATION_LIMIT));
        }
        let Some(work) = self.within(run, params.work) else {
            return Err(Stop::at_limit(WORK_LIMIT));
        };
        if let Err(wide) = run.pivot(entering) {
            return Err(Stop::refused(self.pivots + 1, wide));
        }
        self.pivots += 1;
        self.work = work;
        Ok(if self.pivots % 100 == 0 {
            Some(self.pivots)
        } else {
            None
        })
    }

    /// The work with that of a pivot of this run, where the limit allows it.
    fn within(&self, run: &LpRun, limit: u64) -> Option<u64>
        ensures { result ≡ within_limit (self.now.work + entry_count run.now) limit }
    {
        match self.work.checked_add(run.work()) {
            Some(work) if work <= limit => Some(work),
            _ => None,
        }
    }
}
