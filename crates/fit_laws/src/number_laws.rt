//! Which numbers fit, as contracts without code.
ghost use Rattle.std.specs.Prelude.{◌≡◌, ℕ, All, List, Ok};
ghost use Rattle.model_data.specs.Kept.{HasKeptNumbers};
ghost use Rattle.model_data.specs.declared.model.Model.{Model};
ghost use Rattle.dictionary.specs.Dictionary.{Dictionary, IsUniform, opening};
ghost use Rattle.dictionary.specs.Solutions.{HasReducedNumbers};
ghost use Rattle.dictionary.specs.declared.standard.Std.{Std};
ghost use Rattle.solve_defs.specs.KeptCuts.{IsKeptCut};
ghost use Rattle.solve_defs.specs.Path.{Path};
ghost use Rattle.solve_defs.specs.StandardForm.{standard_form};
ghost use Rattle.solve_defs.specs.declared.cut.Cut.{Cut};
ghost use Rattle.fit_laws.specs.KeptEntries.{HasKeptEntries, HasKeptForm};

/// The numbers of a model's standard form fit, and so do the entries of each dictionary that its pivots reach: each is the
/// result of an operation that fits.
pub fn numbers_on_the_path_fit()
    ensures form { (m : Model) (cuts : List Cut) (s : Std) → HasKeptNumbers m → All IsKeptCut cuts → standard_form m cuts ≡ Ok s → HasKeptForm s }
    ensures path { (s : Std) (n : ℕ) (d : Dictionary) → IsUniform s → HasReducedNumbers s → HasKeptForm s → Path (opening s) n d
        → HasKeptEntries d }
{}
