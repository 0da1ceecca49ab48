//! What pivots that fit have to do with exact ones, as contracts without code.
ghost use Rattle.std.specs.Prelude.{◌≡◌, ℕ, List, Ok};
ghost use Rattle.dictionary.specs.Dictionary.{Dictionary};
ghost use Rattle.dictionary.specs.ExactPath.{ExactStep, exact_pivot, exact_ratios};
ghost use Rattle.dictionary.specs.Rule.{Ratio, ratios};
ghost use Rattle.dictionary.specs.Solutions.{IsLawful, Pivots, PivotsByRule};

/// A pivot whose operations fit is the exact one, ratios that fit are the exact ones, and a pivot by the rule is a step of the
/// exact path.
pub fn what_fits_is_exact()
    ensures pivot { (r c : ℕ) (d e : Dictionary) → IsLawful d → Pivots r c d e → e ≡ exact_pivot r c d }
    ensures ratios { (d : Dictionary) (c : ℕ) (rs : List Ratio) → ratios d c ≡ Ok rs → rs ≡ exact_ratios d c }
    ensures step { (r c : ℕ) (d e : Dictionary) → IsLawful d → PivotsByRule r c d e → ExactStep d e }
{}
