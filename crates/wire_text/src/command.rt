//! What a line asks a session for.

use base_names::{BatchId, Name, Text};
use model_core::Change;

/// A command, with the values of its arguments. `specs/Forms.antt` says which lines give it.
#[derive(Debug, Drop, PartialEq, Eq)]
pub enum Command {
    /// To take the model that the block of so many bytes behind the line spells. `None`: the block is longer than
    /// [`BLOCK_LIMIT`](crate::BLOCK_LIMIT), and nothing of it is read.
    Read(Option<u32>),
    /// To queue a change of the model.
    Queue(Change),
    /// To make the changes that are queued.
    Update,
    /// To tell a variable's lower bound.
    GetLb(Name),
    /// To tell a variable's upper bound.
    GetUb(Name),
    /// To tell a variable's coefficient in the objective.
    GetObj(Name),
    /// To tell a variable's kind.
    GetType(Name),
    /// To tell a row's right side.
    GetRhs(Name),
    /// To tell a row's comparison.
    GetSense(Name),
    /// To tell a coefficient: the row, and then the variable.
    GetCoeff(Name, Name),
    /// To tell a variable's tag.
    GetVTag(Name),
    /// To tell how many variables there are.
    GetNumVars,
    /// To tell how many rows there are.
    GetNumConstrs,
    /// To tell the parameter of this name.
    GetParam(Text),
    /// To write the model.
    Write,
    /// To set the parameter of this name.
    SetParam(Text, i128),
    /// To submit the model as a batch.
    Batch,
    /// To tell a batch's status.
    BStatus(BatchId),
    /// To end the session.
    Bye,
}
