//! What a session keeps.

ghost use Rattle.std.specs.Prelude.{◌≡◌};
ghost use Rattle.session.specs.Transcript.{first_session};

use base_names::Seat;
use lazy_model::LazyModel;
use model_data::Params;
use std::alloc::Global;
use std::marker::Model;

/// Whose session it is, its model with what is queued, and its parameters.
#[derive(Drop)]
pub struct State {
    pub seat: Seat,
    pub model: LazyModel,
    pub params: Params,
}

impl Model for State {
    ghost use Rattle.model_data.specs.Params.{IsInRange};
    ghost use Rattle.session.specs.Session.{Session};

    ghost Value = { Session };

    ghost view = { λ s. record { seat = s.seat; model = s.model; params = s.params } };

    ghost invariant = { λ s. IsInRange s.params };
}

impl State {
    /// Nothing is read, and nothing allocated.
    pub fn new(alloc: Global, seat: Seat) -> State
        ensures { result ≡ first_session seat }
    {
        State {
            seat,
            model: LazyModel::new(alloc),
            params: Params::usual(),
        }
    }
}
