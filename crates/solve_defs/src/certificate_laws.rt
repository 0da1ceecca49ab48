//! What a valid certificate proves of its model, as contracts without code.
ghost use Rattle.std.specs.Prelude.{◌≡◌, ℕ, ℤ, List, Some};
ghost use Rattle.model_data.specs.Lawful.{IsLawful};
ghost use Rattle.model_data.specs.declared.model.Model.{Model};
ghost use Rattle.model_data.specs.declared.solution.Cert.{Cert};
ghost use Rattle.model_data.specs.declared.solution.Cert.TheVariants.{Tree};
ghost use Rattle.model_data.specs.declared.solution.CertNode.{CertNode};
ghost use Rattle.model_data.specs.declared.solution.Outcome.{Outcome};
ghost use Rattle.model_data.specs.declared.solution.Point.{Point};
ghost use Rattle.solve_defs.specs.Cases.{IsCasePoint};
ghost use Rattle.solve_defs.specs.Certificates.{IsValid, value_of, verdict};
ghost use Rattle.solve_defs.specs.Points.{HasNoPoint, IsBestPoint, IsBetter, IsFeasible, IsFeasiblePoint, IsUnbounded, objective_value, ratio, relaxation};
ghost use Rattle.solve_defs.specs.declared.cut.Cut.{Cut};
ghost use Rattle.solve_defs.specs.declared.status.TheConstants.{INFEASIBLE, OPTIMAL, UNBOUNDED};
ghost use Rattle.solve_defs.specs.declared.verdict.Verdict.TheVariants.{Valid};

/// A feasible point of the model that is within the cuts is one of the relaxation under them.
pub fn a_relaxation_has_the_points_within_its_cuts()
    ensures { (m : Model) (cuts : List Cut) (X : List ℤ) (d : ℕ) → IsCasePoint m cuts X d → IsFeasible (relaxation m cuts) X d }
{}

/// A valid certificate shows the outcome right: a best point, that there is no point, or that nothing bounds the objective. A
/// point that is kept is feasible with every status, and none is better than what a tree keeps.
pub fn a_valid_certificate_shows_the_outcome()
    ensures optimal { (m : Model) (o : Outcome) (cert : Cert) → IsLawful m → IsValid m o cert → o.status ≡ OPTIMAL
        → (p : Point) × (o.point ≡ Some p) × IsBestPoint m p }
    ensures infeasible { (m : Model) (o : Outcome) (cert : Cert) → IsLawful m → IsValid m o cert → o.status ≡ INFEASIBLE → HasNoPoint m }
    ensures unbounded { (m : Model) (o : Outcome) (cert : Cert) → IsValid m o cert → o.status ≡ UNBOUNDED → IsUnbounded m }
    ensures point { (m : Model) (o : Outcome) (cert : Cert) (p : Point) → IsValid m o cert → o.point ≡ Some p → IsFeasiblePoint m p }
    ensures tree { (m : Model) (o : Outcome) (nodes : List CertNode) → IsLawful m → IsValid m o (Tree nodes)
        → (X : List ℤ) (d : ℕ) → IsFeasible m X d → IsBetter m.direction (objective_value m X d) (ratio (value_of o.point)) → ⊥ }
{}

/// What a check by operations that fit finds valid is valid.
pub fn a_check_that_finds_nothing_is_right()
    ensures { (m : Model) (o : Outcome) (cert : Cert) → verdict m o cert ≡ Valid → IsValid m o cert }
{}
