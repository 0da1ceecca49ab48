//! What a session asks the desk for.

ghost use Rattle.std.specs.Prelude.{◌≡◌, []};
ghost use Rattle.cluster_defs.specs.declared.reply.Reply as replies;
ghost use Rattle.session.specs.Hearing.{WasAsked};
ghost use Rattle.session.specs.Session.{asks, has_tag};
ghost use Rattle.session.specs.Step.{Acts, Submits};

use crate::state::State;
use base_names::{BatchId, NoMemory, Refusal};
use hub_words::{Ask, BatchBody, Desk};
use model_data::{MAX_SIZE, Model, size};
use std::alloc::Global;
use wire_text::{append_refusal, append_reply};

impl State {
    /// Applies what is queued, and submits the model.
    pub fn submit<E: Desk>(
        &mut self,
        desk: &mut E,
        alloc: Global,
        out: &mut Vec<u8>,
    ) -> Result<(), NoMemory>
        requires { out.old.items ≡ [] }
        ensures same { E.name desk.new ≡ E.name desk.old }
        ensures submits { Submits result self.old self.new out.new.items (E.mine desk.old) (E.mine desk.new) (E.fulls desk.old) (E.fulls desk.new) (λ calls. WasAsked E.makes self.old.seat desk.old calls desk.new) }
    {
        self.model.update();
        let model = self.model.applied();
        if !has_tag(model) {
            return append_refusal(out, &Refusal::NOTAG);
        }
        if size(model) > MAX_SIZE {
            return append_refusal(out, &Refusal::SIZE);
        }
        let Ok(model) = model.copy(alloc) else {
            return append_refusal(out, &Refusal::MEMORY);
        };
        let body = BatchBody {
            model,
            params: self.params,
        };
        let reply = desk.ask(alloc, &self.seat, Ask::Create(body));
        append_reply(out, &reply)
    }

    /// Tells a batch's status.
    pub fn tell_status<E: Desk>(
        &self,
        desk: &mut E,
        alloc: Global,
        id: BatchId,
        out: &mut Vec<u8>,
    ) -> Result<(), NoMemory>
        requires { out.old.items ≡ [] }
        ensures same { E.name desk.new ≡ E.name desk.old }
        ensures asks { (reply : replies.Reply) × Acts result (asks self.now (Ask.Status id) reply) self.now self.now out.new.items (E.mine desk.old) (E.mine desk.new) (E.fulls desk.old) (E.fulls desk.new) (λ calls. WasAsked E.makes self.now.seat desk.old calls desk.new) }
    {
        let reply = desk.ask(alloc, &self.seat, Ask::Status(id));
        append_reply(out, &reply)
    }
}

/// Whether a variable has a tag.
fn has_tag(model: &Model) -> bool
    ensures { result ≡ has_tag model.now }
{
    model.vars.as_slice().iter().any(|var| var.tag.is_some())
}
