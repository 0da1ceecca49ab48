//! The model of a text.

ghost use Rattle.std.specs.Prelude.{◌≡◌, ◌≤◌, Err, IfOk, length};
ghost use Rattle.base_names.specs.declared.memory.OrMemory.{OrMemory as OrMemoryDef};
ghost use Rattle.lp_defs.specs.declared.fault.ModelFault.{ModelFault as FaultDef};
ghost use Rattle.model_command.specs.Says.{IsAnswered, IsModelOf, IsNoModel, too_large};
ghost use Rattle.model_command.specs.declared.command.TheConstants.{TEXT_LIMIT};
ghost use Rattle.model_data.specs.Lawful.{IsLawful};

use crate::query::Query;
use base_names::{FaultWord, OrMemory, Text};
use lp_defs::ModelFault;
use lp_parse::parse;
use model_data::{MAX_SIZE, Model, size};
use std::alloc::Global;

/// The answer for the model that a text spells; or why there is none.
pub(crate) fn text_of<Q: Query>(
    alloc: Global,
    query: &Q,
    text: &[u8],
) -> Result<Text, OrMemory<ModelFault>>
    requires { length text.now ≤ TEXT_LIMIT }
    ensures answered { IfOk result (λ answer. IsAnswered (Q.answers query.now) text.now answer) }
    ensures refused { (fault : FaultDef) → result ≡ Err (OrMemoryDef.Fault fault) → IsNoModel text.now fault }
{
    let model = model_of(alloc, text)?;
    Ok(query.answer(alloc, model)?)
}

/// The model that a text spells, where it is small enough.
fn model_of(alloc: Global, text: &[u8]) -> Result<Model, OrMemory<ModelFault>>
    requires { length text.now ≤ TEXT_LIMIT }
    ensures spelled { IfOk result (λ m. IsModelOf text.now m × IsLawful m) }
    ensures refused { (fault : FaultDef) → result ≡ Err (OrMemoryDef.Fault fault) → IsNoModel text.now fault }
{
    let model = parse(alloc, text)?;
    if size(&model) > MAX_SIZE {
        return Err(OrMemory::Fault(too_large()));
    }
    Ok(model)
}

/// The fault of a model that is too large: it has no place in the text.
fn too_large() -> ModelFault
    ensures { result ≡ too_large }
{
    ModelFault {
        line: 1,
        column: 1,
        fault: FaultWord::Size,
    }
}
