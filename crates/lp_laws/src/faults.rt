//! Which fault a text has, as contracts without code.
ghost use Rattle.std.specs.Prelude.{◌≡◌, ◌↔◌, ◌⊎◌, ℕ, List};
ghost use Rattle.model_data.specs.declared.model.Model.{Model};
ghost use Rattle.lp_defs.specs.declared.fault.ModelFault.{ModelFault};
ghost use Rattle.lp_defs.specs.Text.{Spells, Stops};
ghost use Rattle.lp_laws.specs.Faults.{IsFaultOf};

/// The fault that a text is read with is the first that is wrong in it.
pub fn faults_are_these()
    ensures { (text : List ℕ) (f : ModelFault) → Stops text f ↔ IsFaultOf text f }
{}

/// Each text spells a model or has a fault, and never both, and none has two faults.
pub fn one_fault()
    ensures either { (text : List ℕ) → ((m : Model) × Spells text m) ⊎ ((f : ModelFault) × IsFaultOf text f) }
    ensures never_both { (text : List ℕ) (m : Model) (f : ModelFault) → Spells text m → IsFaultOf text f → ⊥ }
    ensures one { (text : List ℕ) (f g : ModelFault) → IsFaultOf text f → IsFaultOf text g → f ≡ g }
{}
