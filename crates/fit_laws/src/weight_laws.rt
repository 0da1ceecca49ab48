//! That weights come back to the model, as contracts without code.
ghost use Rattle.std.specs.Prelude.{◌≡◌, ◌<◌, ◌⊎◌, ℕ, All, List, Ok, length, slice_index_or, suc};
ghost use Rattle.frac128.specs.Fraction.{Fraction, zero_value};
ghost use Rattle.frac128.specs.Lowest.{IsKept};
ghost use Rattle.model_data.specs.Kept.{HasKeptNumbers};
ghost use Rattle.model_data.specs.Lawful.{IsLawful};
ghost use Rattle.model_data.specs.declared.model.Model.{Model};
ghost use Rattle.model_data.specs.declared.solution.Weights.{Weights};
ghost use Rattle.dictionary.specs.Dictionary.{Dictionary};
ghost use Rattle.dictionary.specs.declared.standard.Std.{Std};
ghost use Rattle.dictionary.specs.declared.standard.StdRow.{StdRow};
ghost use Rattle.solve_defs.specs.Ends.{dual_of, duals, farkas_of};
ghost use Rattle.solve_defs.specs.KeptCuts.{IsKeptCut};
ghost use Rattle.solve_defs.specs.Path.{an_end, coming};
ghost use Rattle.solve_defs.specs.Relaxations.{IsReached};
ghost use Rattle.solve_defs.specs.StandardForm.{negated, shapes_of, standard_form, weights_back};
ghost use Rattle.solve_defs.specs.Values.{value_at};
ghost use Rattle.solve_defs.specs.declared.cut.Cut.{Cut};
ghost use Rattle.solve_defs.specs.declared.solving.LpEnd.TheVariants.{Best, NoPoint};
ghost use Rattle.relaxation_laws.specs.Reached.{IsInPhaseOne, IsInPhaseTwo, Relaxes};

/// The two rows of an equality never both have a weight, neither by z in phase two nor by w in phase one.
pub fn an_equality_weighs_once()
    ensures z { (s : Std) (d : Dictionary) (line : List Fraction) (i : ℕ) (row : StdRow) → Relaxes s d → IsInPhaseTwo d → suc i < length s.rows
        → slice_index_or s.rows (suc i) row ≡ negated (slice_index_or s.rows i row)
        → (value_at (duals d line).ys i ≡ zero_value) ⊎ (value_at (duals d line).ys (suc i) ≡ zero_value) }
    ensures w { (s : Std) (d : Dictionary) (w : List Fraction) (i : ℕ) (row : StdRow) → Relaxes s d → IsInPhaseOne d w → suc i < length s.rows
        → slice_index_or s.rows (suc i) row ≡ negated (slice_index_or s.rows i row)
        → (value_at (duals d w).ys i ≡ zero_value) ⊎ (value_at (duals d w).ys (suc i) ≡ zero_value) }
{}

/// The weights of an end come back without a refused operation, where each of them fits.
pub fn an_end_has_weights_to_bring_back()
    ensures best { (m : Model) (cuts : List Cut) (s : Std) (d : Dictionary) → standard_form m cuts ≡ Ok s → Relaxes s d → IsInPhaseTwo d
        → All IsKept (dual_of d).ys → (weights : Weights) × (weights_back m (shapes_of m cuts) (dual_of d).ys (dual_of d).reduced ≡ Ok weights) }
    ensures no_point { (m : Model) (cuts : List Cut) (s : Std) (d : Dictionary) (w : List Fraction) → standard_form m cuts ≡ Ok s → Relaxes s d
        → IsInPhaseOne d w → All IsKept (farkas_of d).ys
        → (weights : Weights) × (weights_back m (shapes_of m cuts) (farkas_of d).ys (farkas_of d).reduced ≡ Ok weights) }
{}

/// The weights of a relaxation that ends come back without a refused operation.
pub fn a_relaxation_that_ends_has_its_weights()
    ensures best { (m : Model) (cuts : List Cut) (d : Dictionary) → IsLawful m → HasKeptNumbers m → All IsKeptCut cuts → IsReached m cuts d
        → coming d ≡ an_end Best
        → (weights : Weights) × (weights_back m (shapes_of m cuts) (dual_of d).ys (dual_of d).reduced ≡ Ok weights) }
    ensures no_point { (m : Model) (cuts : List Cut) (d : Dictionary) → IsLawful m → HasKeptNumbers m → All IsKeptCut cuts → IsReached m cuts d
        → coming d ≡ an_end NoPoint
        → (weights : Weights) × (weights_back m (shapes_of m cuts) (farkas_of d).ys (farkas_of d).reduced ≡ Ok weights) }
{}
