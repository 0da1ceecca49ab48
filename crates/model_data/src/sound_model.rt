//! A model with what laws ask of it, as facts of its type.
ghost use Rattle.std.proofs.Props.{props};
ghost use Rattle.model_data.specs.Kept.{HasKeptNumbers};
ghost use Rattle.model_data.specs.Lawful.{IsLawful};

use crate::kept::kept_numbers;
use crate::model::Model;

/// A lawful model, whose numbers are in lowest terms and fit. A law that speaks of one asks for nothing else.
#[derive(Debug, Drop)]
pub struct SoundModel {
    pub model: Model,
    pub ghost lawful: { IsLawful model } by { Prim.hlevel props },
    pub ghost kept: { HasKeptNumbers model } by { Prim.hlevel props },
}

impl SoundModel {
    ghost use Rattle.std.specs.Prelude.{◌≡◌};

    /// It goes over the model's numbers once.
    pub fn of(model: Model) -> SoundModel
        requires { IsLawful model }
        ensures { result.model ≡ model }
    {
        kept_numbers(&model);
        SoundModel { model }
    }
}
