//! Laws of changes that `model_core` defines and has no need of itself.
#![tactic(auto)]

ghost use Rattle.std.specs.Prelude.{◌≡◌, List, Ok, bytes_eq, false, ℕ};
ghost use Rattle.model_data.specs.Lawful.{IsLawful};
ghost use Rattle.model_data.specs.declared.model.Model.{Model};
ghost use Rattle.model_core.specs.Look.{coefficient_at};
ghost use Rattle.model_core.specs.One.{one};
ghost use Rattle.model_core.specs.declared.change.Change.TheVariants.{DelVar};

/// Where a variable is deleted, every other one keeps its coefficient in each row, though the places of those behind it change.
#[tactic(auto, using(crate::proofs::DeletedVar::coefficients_kept))]
pub fn a_deletion_keeps_other_coefficients()
    ensures { (m n : Model) (name row var : List ℕ) → IsLawful m → one m (DelVar name) ≡ Ok n → bytes_eq name var ≡ false
        → coefficient_at row var n ≡ coefficient_at row var m }
{}
