//! The text of a solution.

ghost use Rattle.std.specs.Prelude.{◌≡◌, IfOk};
ghost use Rattle.json_solution.specs.Solution.{HasTags, solution_text};

use crate::built::solution;
use base_names::{NoMemory, Text};
use model_data::{Model, Outcome};
use std::alloc::Global;

/// The text of an outcome, with the tagged variables of its model at the point that it keeps: with a detail of 0 those that
/// aren't 0, else all of them.
pub fn json(alloc: Global, model: &Model, outcome: &Outcome, detail: u8) -> Result<Text, NoMemory>
    requires { HasTags model.now }
    ensures { IfOk result (λ text. text ≡ solution_text model.now outcome.now detail) }
{
    let text = solution(alloc, model, outcome, detail)?.to_string(alloc)?;
    Ok(Text::of(text.into_bytes()))
}
