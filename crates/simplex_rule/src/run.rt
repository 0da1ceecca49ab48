//! One relaxation, a pivot at a time.
ghost use Rattle.std.specs.Prelude.{◌≡◌, IfOk, OnErr, OnOk};
ghost use Rattle.dictionary.specs.Dictionary.{HasSameSizes, IsUniform, opening, with_value};
ghost use Rattle.dictionary.specs.Solutions.{HasReducedNumbers};
ghost use Rattle.solve_defs.specs.Path.{a_pivot, coming, entry_count, next};
ghost use Rattle.bland_rule.specs.Comes.{coming_of, entering_of, work_of};
ghost use Rattle.simplex_rule.specs.OnPath.{IsOnPath};
ghost use Rattle.simplex_rule.specs.Turns.{Advances};
ghost use Rattle.simplex_rule.specs.declared.run.LpTurn.TheVariants.{Pivoted};

use crate::steps::pivot_by;
use base_names::NoMemory;
use bland_rule::{Coming, Entering};
use dictionary::{Dict, Std};
use fit_laws::form_is_kept;
use frac128::Wide;
use solve_defs::LpEnd;
use std::alloc::Global;
use std::marker::Model;

/// What one step of a run answers.
#[derive(Clone, Copy, Debug, PartialEq, Eq)]
pub enum LpTurn {
    Pivoted,
    Ended(LpEnd),
    /// This operation doesn't fit.
    Wide(Wide),
}

/// The pivots of one relaxation. Contracts see its dictionary.
#[derive(Debug, Drop)]
pub struct LpRun {
    dict: Dict,
}

impl Model for LpRun {
    ghost use Rattle.dictionary.specs.Dictionary.{Dictionary};

    ghost Value = { Dictionary };

    ghost view = { λ run. run.dict };
}

impl LpRun {
    /// The dictionary that the standard form opens with, on its path. The numbers of a form are in lowest terms.
    #[tactic(auto, using(crate::proofs::Pivots::opening_on_path))]
    pub fn start(alloc: Global, s: Std) -> Result<LpRun, NoMemory>
        requires uniform { IsUniform s }
        ensures opens { IfOk result (λ run. run ≡ opening s) }
        ensures lowest { IfOk result (λ _. HasReducedNumbers s) }
        ensures path { IfOk result IsOnPath }
    {
        form_is_kept(&s);
        Ok(LpRun {
            dict: Dict::from_std(alloc, s)?,
        })
    }

    /// What comes next.
    pub fn coming(&self) -> Coming
        ensures { coming_of result ≡ coming self.now }
    {
        bland_rule::coming(&self.dict)
    }

    /// The work of the pivot that comes next, where one comes.
    pub fn next_work(&self) -> Option<u64>
        ensures { result ≡ work_of (coming self.now) self.now }
    {
        bland_rule::next_work(&self.dict)
    }

    /// The work of a pivot.
    pub fn work(&self) -> u64
        ensures { result ≡ entry_count self.now }
    {
        bland_rule::work(&self.dict)
    }

    /// The pivot by which this variable enters, as comes next.
    pub fn pivot(&mut self, entering: Entering) -> Result<(), Wide>
        requires comes { coming self.old ≡ a_pivot (entering_of entering) }
        requires path { IsOnPath self.old }
        ensures value { with_value result self.new ≡ next (entering_of entering) self.old }
        ensures path { OnOk result (IsOnPath self.new) }
        ensures sizes { OnErr result (HasSameSizes self.old self.new) }
    {
        pivot_by(&mut self.dict, entering)
    }

    /// The pivot or the end that comes next. It takes no memory. Behind a refused operation nothing is known of the entries, but the sizes are kept.
    pub fn advance(&mut self) -> LpTurn
        requires path { IsOnPath self.old }
        ensures turn { Advances self.old (coming self.old) result self.new }
        ensures path { result ≡ Pivoted → IsOnPath self.new }
    {
        match self.coming() {
            Coming::End(end) => LpTurn::Ended(end),
            Coming::Pivot(entering) => match self.pivot(entering) {
                Ok(()) => LpTurn::Pivoted,
                Err(wide) => LpTurn::Wide(wide),
            },
        }
    }

    /// The dictionary as it stands.
    pub fn tableau(&self) -> &Dict
        ensures { result.now ≡ self.now }
    {
        &self.dict
    }
}
