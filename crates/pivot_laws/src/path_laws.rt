//! How long the path of pivots is.
ghost use Rattle.std.specs.Prelude.{◌<◌, ℕ, All, ◌++◌, length};
ghost use Rattle.dictionary.specs.declared.standard.Std.{Std};
ghost use Rattle.dictionary.specs.Dictionary.{Dictionary, IsUniform, opening};
ghost use Rattle.dictionary.specs.ExactPath.{ExactPath};
ghost use Rattle.dictionary.specs.Solutions.{HasFeasibleConstants, HasReducedNumbers, IsLawful};
ghost use Rattle.limit_defs.specs.Counts.{choose, pivots_within};
ghost use Rattle.solve_defs.specs.Path.{Path};

/// A path of exact pivots within a phase is shorter than there are ways to choose as many basic variables among the numbers
/// below one that no variable reaches.
pub fn a_phase_has_fewer_pivots_than_bases()
    ensures { (top n : ℕ) (d e : Dictionary) → IsLawful d → HasFeasibleConstants d → All (λ v. v < top) (d.basic ++ d.nonbasic) → ExactPath d n e
        → n < choose top (length d.basic) }
{}

/// A relaxation of so many columns and rows takes fewer pivots than twice the ways to choose the basic variables among the columns,
/// the rows and one more, so at most as many also where a further one would come.
pub fn a_relaxation_takes_few_pivots()
    ensures { (s : Std) (n : ℕ) (e : Dictionary) → IsUniform s → HasReducedNumbers s → Path (opening s) n e
        → n < pivots_within (length s.obj) (length s.rows) }
{}
