//! What is found in an input.

ghost use Rattle.std.specs.Prelude.{◌≡◌, ◌≤◌, IfOk, length};
ghost use Rattle.model_data.specs.Lawful.{IsLawful};
ghost use Rattle.verify_command.specs.Findings.{FindsBehind, FindsIn, IsFinding};
ghost use Rattle.verify_command.specs.declared.command.TheConstants.{VERIFY_LIMIT};

use crate::parts::parts_of;
use base_names::{NoMemory, OrMemory};
use cert_check::check;
use cert_text::read;
use lp_defs::ModelFault;
use lp_parse::parse;
use model_data::Model;
use solve_defs::Verdict;
use std::alloc::Global;

/// What is found in an input: the first that is wrong, or the verdict on its certificate.
#[derive(Clone, Copy, Debug, PartialEq, Eq)]
pub enum Finding {
    /// The block spells no model.
    NoModel(ModelFault),
    /// The line of this number is refused: 1 for the line of the model's length or its block, else one of the certificate.
    Refused(u32),
    Checked(Verdict),
}

/// What is found in an input. Its parts are looked at in order: the line of the model's length with its block, the model, the text
/// of the certificate, and what that shows.
pub fn finding_of(alloc: Global, input: &[u8]) -> Result<Finding, NoMemory>
    requires { length input.now ≤ VERIFY_LIMIT }
    ensures { IfOk result (λ found. IsFinding input.now found) }
{
    match parts_of(input) {
        Some((block, text)) => finding_in(alloc, block, text),
        None => Ok(Finding::Refused(1)),
    }
}

fn finding_in(alloc: Global, block: &[u8], text: &[u8]) -> Result<Finding, NoMemory>
    requires block { length block.now ≤ VERIFY_LIMIT }
    requires text { length text.now ≤ VERIFY_LIMIT }
    ensures { IfOk result (λ found. FindsIn block.now text.now found) }
{
    match parse(alloc, block) {
        Ok(model) => finding_of_model(alloc, &model, text),
        Err(OrMemory::Fault(fault)) => Ok(Finding::NoModel(fault)),
        Err(OrMemory::NoMemory) => Err(NoMemory),
    }
}

/// What is found of a model and the text of a certificate.
fn finding_of_model(alloc: Global, model: &Model, text: &[u8]) -> Result<Finding, NoMemory>
    requires lawful { IsLawful model.now }
    requires text { length text.now ≤ VERIFY_LIMIT }
    ensures { IfOk result (λ found. FindsBehind model.now text.now found) }
{
    match read(alloc, text) {
        Ok(proof) => {
            let verdict = check(alloc, model, &proof.outcome, &proof.cert)?;
            Ok(Finding::Checked(verdict))
        }
        Err(OrMemory::Fault(fault)) => Ok(Finding::Refused(fault.line + 1)),
        Err(OrMemory::NoMemory) => Err(NoMemory),
    }
}
