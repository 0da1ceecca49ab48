//! Cut after any number of turns or not at all, a solve has a valid certificate and says what is so of its model.
ghost use Rattle.std.specs.Prelude.{ℕ};
ghost use Rattle.model_data.specs.Kept.{HasKeptNumbers};
ghost use Rattle.model_data.specs.Lawful.{IsLawful};
ghost use Rattle.model_data.specs.declared.model.Model.{Model};
ghost use Rattle.model_data.specs.declared.params.Params.{Params};
ghost use Rattle.model_data.specs.declared.sound_model.SoundModel.{SoundModel};
ghost use Rattle.solve_defs.specs.Answers.{IsSo};
ghost use Rattle.solve_defs.specs.Certificates.{IsValid};
ghost use Rattle.solve_defs.specs.Plain.{plain_cut};

use model_data::{Model, kept_numbers};

/// Of a lawful model with numbers in lowest terms.
pub fn a_solve_is_right()
    ensures valid { (m : Model) (p : Params) (k : ℕ) → IsLawful m → HasKeptNumbers m → IsValid m (plain_cut m p k).outcome (plain_cut m p k).cert }
    ensures so { (m : Model) (p : Params) (k : ℕ) → IsLawful m → HasKeptNumbers m → IsSo m (plain_cut m p k).outcome }
{}

/// Of a sound model, without a premise.
pub fn a_solve_of_a_sound_model_is_right()
    ensures valid { (m : SoundModel) (p : Params) (k : ℕ) → IsValid m.model (plain_cut m.model p k).outcome (plain_cut m.model p k).cert }
    ensures so { (m : SoundModel) (p : Params) (k : ℕ) → IsSo m.model (plain_cut m.model p k).outcome }
{}

/// Does nothing, and tells a proof the same of one model. It goes over the model's numbers once.
pub fn solves_are_right(m: &Model)
    requires { IsLawful m.now }
    ensures valid { (p : Params) (k : ℕ) → IsValid m.now (plain_cut m.now p k).outcome (plain_cut m.now p k).cert }
    ensures so { (p : Params) (k : ℕ) → IsSo m.now (plain_cut m.now p k).outcome }
{
    kept_numbers(m);
}
