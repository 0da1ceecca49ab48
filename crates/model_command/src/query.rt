//! What is asked of a model.

ghost use Rattle.std.specs.Prelude.{ℕ, IfOk, List};
ghost use Rattle.model_data.specs.Lawful.{IsLawful};
ghost use Rattle.model_data.specs.declared.model.Model.{Model};

use base_names::{NoMemory, Text};
use model_data::Model;
use std::alloc::Global;

/// What a command is asked of a model.
pub trait Query {
    // The text is an answer for the model.
    ghost answers: { Self → Model → List ℕ → Type 0 };

    /// The text that answers for a lawful model.
    fn answer(&self, alloc: Global, model: Model) -> Result<Text, NoMemory>
        requires { IsLawful model }
        ensures { IfOk result (λ text. answers self.now model text) };
}
