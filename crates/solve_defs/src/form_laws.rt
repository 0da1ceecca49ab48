//! What holds of standard forms and of the models that they stand for, as contracts without code.
ghost use Rattle.std.specs.Prelude.{◌≡◌, ℕ, ℤ, List, Ok};
ghost use Rattle.frac128.specs.Fraction.{Fraction};
ghost use Rattle.model_data.specs.Lawful.{IsLawful};
ghost use Rattle.model_data.specs.declared.model.Model.{Model};
ghost use Rattle.dictionary.specs.declared.standard.Std.{Std};
ghost use Rattle.solve_defs.specs.Columns.{ComesFromColumns, IsColumnsPoint, exact_point, model_value};
ghost use Rattle.solve_defs.specs.Columns.{HasNoColumnsPoint, IsBestColumnsPoint, RisesWithoutBound};
ghost use Rattle.solve_defs.specs.Points.{HasNoPoint, IsBestPoint, IsFeasible, IsFeasiblePoint, IsUnbounded, relaxation};
ghost use Rattle.solve_defs.specs.StandardForm.{Shape, point_back, shapes_of, standard_form};
ghost use Rattle.solve_defs.specs.declared.cut.Cut.{Cut};

/// A standard form has just the points of the model's relaxation, with the same values: allowed values of its columns stand
/// for a feasible point of the model with these cuts, and each such point comes from allowed values of the columns. What the
/// checked way back gives is the exact point.
pub fn a_standard_form_keeps_the_points()
    ensures back { (m : Model) (cuts : List Cut) (s : Std) (ys : List Fraction) → IsLawful m
        → standard_form m cuts ≡ Ok s → IsColumnsPoint s ys
        → IsFeasiblePoint (relaxation m cuts) record { xs = exact_point (shapes_of m cuts) ys; value = model_value m.direction s ys } }
    ensures forth { (m : Model) (cuts : List Cut) (s : Std) (X : List ℤ) (d : ℕ) → IsLawful m
        → standard_form m cuts ≡ Ok s → IsFeasible (relaxation m cuts) X d → ComesFromColumns m cuts s X d }
    ensures checked { (shapes : List Shape) (ys xs : List Fraction) → point_back shapes ys ≡ Ok xs → xs ≡ exact_point shapes ys }
{}

/// A standard form ends as the relaxation does: a best point of its columns stands for a best one of the model with these
/// cuts; where the columns have no allowed values, the relaxation has no point; and where they rise without bound, so does it.
pub fn a_standard_form_ends_as_its_relaxation()
    ensures best { (m : Model) (cuts : List Cut) (s : Std) (ys : List Fraction) → IsLawful m
        → standard_form m cuts ≡ Ok s → IsBestColumnsPoint s ys
        → IsBestPoint (relaxation m cuts) record { xs = exact_point (shapes_of m cuts) ys; value = model_value m.direction s ys } }
    ensures none { (m : Model) (cuts : List Cut) (s : Std) → IsLawful m
        → standard_form m cuts ≡ Ok s → HasNoColumnsPoint s → HasNoPoint (relaxation m cuts) }
    ensures unbounded { (m : Model) (cuts : List Cut) (s : Std) → IsLawful m
        → standard_form m cuts ≡ Ok s → RisesWithoutBound s → IsUnbounded (relaxation m cuts) }
{}
