//! What a verdict says of looks, as a contract without code.
ghost use Rattle.std.specs.Prelude.{◌≡◌, ◌↔◌, All, List};
ghost use Rattle.frac128.specs.declared.operations.Wide.{Wide};
ghost use Rattle.solve_defs.specs.Looks.{Look, verdict_of};
ghost use Rattle.solve_defs.specs.declared.verdict.Place.{Place};
ghost use Rattle.solve_defs.specs.declared.verdict.Verdict.TheVariants.{Invalid, TooWide, Valid};
ghost use Rattle.cert_check.specs.Failures.{FailsAt, IsFirst, Passes, Refuses};

/// Valid exactly where each look fits and holds; invalid at a place exactly where the look there fits and doesn't hold, and each
/// before it fits and holds; too wide exactly where this operation is the first that doesn't fit, and each look before fits and
/// holds.
pub fn a_verdict_tells_the_first_failure()
    ensures valid { (looks : List Look) → (verdict_of looks ≡ Valid) ↔ All Passes looks }
    ensures invalid { (looks : List Look) (place : Place) → (verdict_of looks ≡ Invalid place) ↔ IsFirst (FailsAt place) looks }
    ensures too_wide { (looks : List Look) (wide : Wide) → (verdict_of looks ≡ TooWide wide) ↔ IsFirst (Refuses wide) looks }
{}
