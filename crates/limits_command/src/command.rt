//! The command over a source and a sink.

ghost use Rattle.std.specs.Prelude.{◌≡◌};
ghost use Rattle.base_names.specs.Outside.{Rose};
ghost use Rattle.model_command.specs.Says.{Says};
ghost use Rattle.limits_command.specs.Told.{TellsLimits};

use crate::text::text_of;
use base_io::{Sink, Source};
use base_names::{NoMemory, Text};
use model_command::{ModelEnd, Query, answer};
use model_data::Model;
use std::alloc::Global;

/// Asks for the limits.
#[derive(Clone, Copy)]
struct LimitsQuery {}

impl Query for LimitsQuery {
    ghost answers = { λ _ model text. TellsLimits model text };

    fn answer(&self, alloc: Global, model: Model) -> Result<Text, NoMemory> {
        text_of(alloc, &model)
    }
}

/// Reads the input to its end as the text of a model, and writes the limits on pivots and nodes that no solve of it meets.
pub fn limits<S: Source, K: Sink>(alloc: Global, source: &mut S, sink: &mut K) -> ModelEnd
    ensures same_source { S.name source.new ≡ S.name source.old }
    ensures same_sink { K.name sink.new ≡ K.name sink.old }
    ensures says { Says TellsLimits result (S.left source.old) (S.left source.new) (K.contents sink.old) (K.contents sink.new) }
    ensures read_fault { result ≡ ModelEnd.ReadFault → Rose (S.faults source.old) (S.faults source.new) }
    ensures write_fault { result ≡ ModelEnd.WriteFault → Rose (K.faults sink.old) (K.faults sink.new) }
{
    answer(alloc, &LimitsQuery {}, source, sink)
}
