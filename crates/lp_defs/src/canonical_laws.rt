//! What holds of the text that is written for a model, as a contract without code.
ghost use Rattle.std.specs.Prelude.{◌≡◌, ℕ, List};
ghost use Rattle.model_data.specs.declared.model.Model.{Model};
ghost use Rattle.model_data.specs.declared.sound_model.SoundModel.{SoundModel};
ghost use Rattle.lp_defs.specs.Canonical.{canonical_text, untagged};
ghost use Rattle.lp_defs.specs.Text.{Spells};

/// The text that is written for a model spells it, without its tags, and spells no other model. So reading, writing and
/// reading again give the same model.
pub fn written_is_read()
    ensures spells { (m : SoundModel) → Spells (canonical_text m.model) (untagged m.model) }
    ensures no_other { (m : SoundModel) (n : Model) → Spells (canonical_text m.model) n → n ≡ untagged m.model }
    ensures again { (text : List ℕ) (m : Model) → Spells text m → Spells (canonical_text m) m }
{}
