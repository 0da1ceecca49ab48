//! What the weights of a certificate's leaf prove, as contracts without code.
//!
//! A leaf's points are those of the model's relaxation under the cuts on the way to it. All arithmetic here is exact, so that
//! nothing depends on what fits.
ghost use Rattle.std.specs.Prelude.{◌≡◌, ℕ, ℤ, All, List, Ok};
ghost use Rattle.frac128.specs.Fraction.{Fraction, zero_value};
ghost use Rattle.frac128.specs.Order.{IsBelow};
ghost use Rattle.model_data.specs.Lawful.{IsLawful};
ghost use Rattle.model_data.specs.declared.model.Model.{Model};
ghost use Rattle.model_data.specs.declared.solution.Weights.{Weights};
ghost use Rattle.solve_defs.specs.Certificates.{bound_claim, farkas_claim, leaf_looks};
ghost use Rattle.solve_defs.specs.LeafWeights.{Combines, IsNoBetterThanSide, no_coefs, objective_to_maximize, side_on};
ghost use Rattle.solve_defs.specs.Looks.{Holds, Look, Step, formed, total_of, verdict_of};
ghost use Rattle.solve_defs.specs.Points.{HasNoPoint, IsBetter, IsFeasible, objective_value, ratio, relaxation};
ghost use Rattle.solve_defs.specs.Values.{turned};
ghost use Rattle.solve_defs.specs.declared.cut.Cut.{Cut};
ghost use Rattle.solve_defs.specs.declared.verdict.Verdict.TheVariants.{Valid};

/// Where the weights combine the rows and the bounds into the objective, no point of the leaf has a better value than the side.
/// So none is better than a value by which the leaf's looks hold.
pub fn weights_bound_a_leaf()
    ensures side { (m : Model) (cuts : List Cut) (leaf : ℕ) (weights : Weights) (X : List ℤ) (d : ℕ) → IsLawful m
        → Combines m cuts leaf weights (objective_to_maximize m) → IsFeasible (relaxation m cuts) X d
        → IsNoBetterThanSide m.direction (objective_value m X d) (side_on (turned m.direction m.constant) m cuts weights) }
    ensures none_better { (m : Model) (cuts : List Cut) (leaf : ℕ) (weights : Weights) (value : Fraction) (X : List ℤ) (d : ℕ) → IsLawful m
        → All Holds (leaf_looks m cuts leaf (bound_claim m value) weights) → IsFeasible (relaxation m cuts) X d
        → IsBetter m.direction (objective_value m X d) (ratio value) → ⊥ }
{}

/// Where the weights combine the rows and the bounds into nothing, and the side is below 0, the leaf has no point.
pub fn weights_empty_a_leaf()
    ensures side { (m : Model) (cuts : List Cut) (leaf : ℕ) (weights : Weights) → IsLawful m → Combines m cuts leaf weights (no_coefs m)
        → IsBelow (side_on zero_value m cuts weights) zero_value → HasNoPoint (relaxation m cuts) }
    ensures looks { (m : Model) (cuts : List Cut) (leaf : ℕ) (weights : Weights) → IsLawful m
        → All Holds (leaf_looks m cuts leaf (farkas_claim m) weights) → HasNoPoint (relaxation m cuts) }
{}

/// A sum that a check forms by operations that fit is the exact one. So each look holds where the check finds nothing.
#[tactic(auto, using(crate::proofs::LeafLooks::formed_is, crate::proofs::LeafLooks::valid_holds))]
pub fn formed_sums_are_exact()
    ensures sum { (start : Fraction) (steps : List Step) (sum : Fraction) → formed start steps ≡ Ok sum → sum ≡ total_of start steps }
    ensures looks { (looks : List Look) → verdict_of looks ≡ Valid → All Holds looks }
{}
