//! What holds of the grammar of a model's text, as contracts without code.
ghost use Rattle.std.specs.Prelude.{◌≡◌, ◌↔◌, ◌⊎◌, ◌++◌, ℕ, List, Err, Ok};
ghost use Rattle.model_data.specs.Kept.{HasKeptNumbers};
ghost use Rattle.model_data.specs.Lawful.{IsLawful};
ghost use Rattle.model_data.specs.declared.model.Model.{Model};
ghost use Rattle.lp_defs.specs.declared.fault.ModelFault.{ModelFault};
ghost use Rattle.lp_defs.specs.Grammar.{SpellsModel};
ghost use Rattle.lp_defs.specs.Reading.{reading_of, stage_behind};
ghost use Rattle.lp_defs.specs.Stage.{start};
ghost use Rattle.lp_defs.specs.Symbols.{Seen, Spot};
ghost use Rattle.lp_defs.specs.Text.{reading, Spells, Stops};

/// A text is read as a model exactly where the productions spell that model.
pub fn reading_is_the_grammar()
    ensures tokens { (xs : List Seen) (end : Spot) (m : Model) → (reading_of xs end ≡ Ok m) ↔ SpellsModel xs m }
    ensures texts { (text : List ℕ) (m : Model) → (reading text ≡ Ok m) ↔ Spells text m }
{}

/// Each text spells one model or stops at one place, with one fault, and never both.
pub fn one_model_or_one_place()
    ensures either { (text : List ℕ) → ((m : Model) × Spells text m) ⊎ ((fault : ModelFault) × Stops text fault) }
    ensures one_model { (text : List ℕ) (m n : Model) → Spells text m → Spells text n → m ≡ n }
    ensures one_place { (text : List ℕ) (f g : ModelFault) → Stops text f → Stops text g → f ≡ g }
    ensures never_both { (text : List ℕ) (m : Model) (f : ModelFault) → Spells text m → Stops text f → ⊥ }
{}

/// A fault that some tokens have is the text's, whatever follows them: nothing that begins so spells a model.
pub fn a_stop_is_final()
    ensures fault { (xs ys : List Seen) (end : Spot) (f : ModelFault) → stage_behind start xs ≡ Err f → reading_of (xs ++ ys) end ≡ Err f }
    ensures no_model { (xs ys : List Seen) (m : Model) (f : ModelFault) → stage_behind start xs ≡ Err f → SpellsModel (xs ++ ys) m → ⊥ }
{}

/// A model that a text spells is lawful, and its numbers are in lowest terms and fit.
pub fn spelled_models_are_lawful()
    ensures lawful { (text : List ℕ) (m : Model) → Spells text m → IsLawful m }
    ensures kept { (text : List ℕ) (m : Model) → Spells text m → HasKeptNumbers m }
{}
