//! The command over a source and a sink.

ghost use Rattle.std.specs.Prelude.{◌≡◌};
ghost use Rattle.base_names.specs.Outside.{Rose};
ghost use Rattle.model_command.specs.Says.{Says};
ghost use Rattle.solve_command.specs.Solve.{IsSolved};

use crate::certificate::certificate_of;
use base_io::{Sink, Source};
use base_names::{NoMemory, Text};
use model_command::{ModelEnd, Query, answer};
use model_data::{Model, Params};
use std::alloc::Global;

/// Asks for the outcome of a solve with these parameters.
#[derive(Clone, Copy)]
struct SolveQuery {
    params: Params,
}

impl Query for SolveQuery {
    ghost answers = { λ solve model text. IsSolved solve.params model text };

    fn answer(&self, alloc: Global, model: Model) -> Result<Text, NoMemory> {
        certificate_of(alloc, model, &self.params)
    }
}

/// Reads the input to its end as the text of a model, solves that with these parameters, and writes the text of the outcome with its
/// certificate. Nothing is written before all is solved.
pub fn solve<S: Source, K: Sink>(
    alloc: Global,
    params: &Params,
    source: &mut S,
    sink: &mut K,
) -> ModelEnd
    ensures same_source { S.name source.new ≡ S.name source.old }
    ensures same_sink { K.name sink.new ≡ K.name sink.old }
    ensures says { Says (IsSolved params.now) result (S.left source.old) (S.left source.new) (K.contents sink.old) (K.contents sink.new) }
    ensures read_fault { result ≡ ModelEnd.ReadFault → Rose (S.faults source.old) (S.faults source.new) }
    ensures write_fault { result ≡ ModelEnd.WriteFault → Rose (K.faults sink.old) (K.faults sink.new) }
{
    answer(alloc, &SolveQuery { params: *params }, source, sink)
}
