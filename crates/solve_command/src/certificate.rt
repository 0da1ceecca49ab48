//! From a model to the text of its certificate.

ghost use Rattle.std.specs.Prelude.{◌≡◌, IfOk};
ghost use Rattle.model_data.specs.Lawful.{IsLawful};
ghost use Rattle.solve_defs.specs.Plain.{Search, going, plain, turn as turn_of};
ghost use Rattle.solve_command.specs.Solve.{IsSolved};
ghost use Rattle.solve_command.specs.Turns.{Turns};

use base_names::{NoMemory, Text};
use branch_tree::Solving;
use cert_text::write;
use model_data::{Cert, Model, Outcome, Params};
use node_laws::solves_keep_their_bounds;
use solver_laws::solves_are_right;
use std::alloc::Global;

/// The text of the outcome, with its certificate, of a solve of the model.
pub(crate) fn certificate_of(alloc: Global, model: Model, params: &Params) -> Result<Text, NoMemory>
    requires { IsLawful model }
    ensures { IfOk result (λ answer. IsSolved params.now model answer) }
{
    solves_are_right(&model);
    solves_keep_their_bounds(&model);
    let (outcome, cert) = outcome_of(alloc, model, *params)?;
    write(alloc, &outcome, &cert)
}

/// The end of a solve, by as many turns as it takes.
fn outcome_of(alloc: Global, model: Model, params: Params) -> Result<(Outcome, Cert), NoMemory>
    requires { IsLawful model }
    ensures { IfOk result (λ ended. (ended.0 ≡ (plain model params).outcome) × (ended.1 ≡ (plain model params).cert)) }
{
    let mut solving = Solving::start(alloc, model, params)?;
    while !is_ended_by_a_turn(&mut solving, alloc)? {}
    match solving.into_done() {
        Ok(done) => Ok(done.parts()),
        Err(_) => unreachable!(),
    }
}

/// Makes one turn, and says whether it ended the solve.
fn is_ended_by_a_turn(solving: &mut Solving, alloc: Global) -> Result<bool, NoMemory>
    requires { (s : Search) × (solving.old.progress ≡ going s) }
    ensures { IfOk result (λ ended. (s : Search) → solving.old.progress ≡ going s → Turns (turn_of solving.old.model solving.old.params s) ended solving.old solving.new) }
{
    match &solving.advance(alloc) {
        Ok(turn) => Ok(turn.ended),
        Err(_) => Err(NoMemory),
    }
}
