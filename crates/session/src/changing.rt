//! What changes a session's model and its parameters.

ghost use Rattle.std.specs.Prelude.{◌≡◌, ◌≤◌, [], Err, IfOk, Ok, length};
ghost use Rattle.lp_defs.specs.Text.{reading};
ghost use Rattle.lp_defs.specs.declared.fault.ModelFault as faults;
ghost use Rattle.model_data.specs.Lawful.{IsLawful};
ghost use Rattle.model_core.specs.Asked.{IsLawfulChange};
ghost use Rattle.model_core.specs.One.{one};
ghost use Rattle.model_core.specs.Parameter.{set_of};
ghost use Rattle.lazy_model.specs.Lazy.{latest};
ghost use Rattle.session.specs.Session.{block_effect, queue_effect, read_effect, says, set_effect, updated};
ghost use Rattle.session.specs.Step.{Does, MayDo};
ghost use Rattle.wire_text.specs.Answers.{block_text, updated_text};
ghost use Rattle.wire_text.specs.declared.limits.TheConstants.{BLOCK_LIMIT};
ghost use Rattle.lp_defs.specs.Canonical.{canonical_text};

use crate::state::State;
use base_names::{NoMemory, OrMemory, Refusal, Text};
use lp_defs::ModelFault;
use lp_parse::parse;
use lp_print::print;
use model_core::{Change, set};
use std::alloc::Global;
use wire_text::{append_block, append_done, append_refusal, append_updated};

impl State {
    /// Takes the model that the block spells, where the block's length is in range.
    pub fn read(
        &mut self,
        alloc: Global,
        len: Option<u32>,
        block: &[u8],
        out: &mut Vec<u8>,
    ) -> Result<(), NoMemory>
        requires short { length block.now ≤ BLOCK_LIMIT }
        requires empty { out.old.items ≡ [] }
        ensures { MayDo result (block_effect self.old len block.now) self.old self.new out.new.items }
    {
        match len {
            Some(_) => self.take(alloc, block, out),
            None => append_refusal(out, &Refusal::SIZE),
        }
    }

    /// Takes the model that the block spells. What is queued is dropped.
    fn take(&mut self, alloc: Global, block: &[u8], out: &mut Vec<u8>) -> Result<(), NoMemory>
        requires short { length block.now ≤ BLOCK_LIMIT }
        requires empty { out.old.items ≡ [] }
        ensures { MayDo result (read_effect self.old (reading block.now)) self.old self.new out.new.items }
    {
        let model = match read_model(alloc, block) {
            Ok(model) => model,
            Err(OrMemory::Fault(fault)) => return append_refusal(out, &model_refusal(&fault)),
            Err(OrMemory::NoMemory) => return append_refusal(out, &Refusal::MEMORY),
        };
        match self.model.load(alloc, model) {
            Ok(_) => append_done(out),
            Err(_) => append_refusal(out, &Refusal::MEMORY),
        }
    }

    /// Queues a change.
    pub fn queue(
        &mut self,
        alloc: Global,
        change: Change,
        out: &mut Vec<u8>,
    ) -> Result<(), NoMemory>
        requires lawful { IsLawfulChange change }
        requires empty { out.old.items ≡ [] }
        ensures { MayDo result (queue_effect self.old change (one (latest self.old.model) change)) self.old self.new out.new.items }
    {
        if let Err(refusal) = self.model.queue(alloc, change) {
            return append_refusal(out, &refusal);
        }
        append_done(out)
    }

    /// Makes the changes that are queued.
    pub fn update(&mut self, out: &mut Vec<u8>) -> Result<(), NoMemory>
        requires { out.old.items ≡ [] }
        ensures { Does result (says (updated self.old) (updated_text (length self.old.model.queued))) self.new out.new.items }
    {
        let count = self.model.update();
        append_updated(out, count)
    }

    /// Writes the applied model.
    pub fn write(&self, alloc: Global, out: &mut Vec<u8>) -> Result<(), NoMemory>
        requires { out.old.items ≡ [] }
        ensures { MayDo result (says self.now (block_text (canonical_text self.now.model.applied))) self.now self.now out.new.items }
    {
        match print(alloc, self.model.applied()) {
            Ok(text) => append_block(out, text.as_bytes()),
            Err(_) => append_refusal(out, &Refusal::MEMORY),
        }
    }

    /// Sets a parameter.
    pub fn set_parameter(
        &mut self,
        name: &Text,
        value: &i128,
        out: &mut Vec<u8>,
    ) -> Result<(), NoMemory>
        requires { out.old.items ≡ [] }
        ensures { Does result (set_effect self.old (set_of name.now value.now self.old.params)) self.new out.new.items }
    {
        match set(&mut self.params, name.as_bytes(), *value) {
            Ok(()) => append_done(out),
            Err(refusal) => append_refusal(out, &refusal),
        }
    }
}

/// The model that a text spells, or its first fault.
fn read_model(alloc: Global, text: &[u8]) -> Result<model_data::Model, OrMemory<ModelFault>>
    requires { length text.now ≤ BLOCK_LIMIT }
    ensures ok { IfOk result (λ m. reading text.now ≡ Ok m) }
    ensures lawful { IfOk result IsLawful }
    ensures fault { (fault : faults.ModelFault) → result ≡ Err (OrMemory.Fault fault) → reading text.now ≡ Err fault }
{
    parse(alloc, text)
}

/// Why a text is no model's, as a refusal.
fn model_refusal(fault: &ModelFault) -> Refusal
    ensures { result ≡ Refusal.MODEL fault.now.line fault.now.column fault.now.fault }
{
    Refusal::MODEL(fault.line, fault.column, fault.fault)
}
