//! What a session tells of its applied model and of its parameters.

ghost use Rattle.std.specs.Prelude.{◌≡◌, [], length};
ghost use Rattle.model_core.specs.Look.{coefficient_at, row_of, var_of};
ghost use Rattle.model_core.specs.Parameter.{get_of};
ghost use Rattle.session.specs.Session.{get_effect, says, tells, var_tag_effect};
ghost use Rattle.session.specs.Step.{Does};
ghost use Rattle.wire_text.specs.Answers.{count_text, kind_text, lower_text, number_text, sense_text, upper_text};

use crate::state::State;
use base_names::{Name, NoMemory, Refusal, Text};
use model_core::get;
use wire_text::{
    append_count, append_kind, append_lower, append_number, append_refusal, append_sense,
    append_tag, append_upper, append_whole,
};

impl State {
    pub fn tell_lower(&self, name: &Name, out: &mut Vec<u8>) -> Result<(), NoMemory>
        requires { out.old.items ≡ [] }
        ensures { Does result (tells self.now (λ v. lower_text v.lower) (var_of name.now self.now.model.applied)) self.now out.new.items }
    {
        match self.model.var(name.as_bytes()) {
            Some(var) => append_lower(out, &var.lower),
            None => append_refusal(out, &Refusal::NAME),
        }
    }

    pub fn tell_upper(&self, name: &Name, out: &mut Vec<u8>) -> Result<(), NoMemory>
        requires { out.old.items ≡ [] }
        ensures { Does result (tells self.now (λ v. upper_text v.upper) (var_of name.now self.now.model.applied)) self.now out.new.items }
    {
        match self.model.var(name.as_bytes()) {
            Some(var) => append_upper(out, &var.upper),
            None => append_refusal(out, &Refusal::NAME),
        }
    }

    pub fn tell_objective(&self, name: &Name, out: &mut Vec<u8>) -> Result<(), NoMemory>
        requires { out.old.items ≡ [] }
        ensures { Does result (tells self.now (λ v. number_text v.obj) (var_of name.now self.now.model.applied)) self.now out.new.items }
    {
        match self.model.var(name.as_bytes()) {
            Some(var) => append_number(out, &var.obj),
            None => append_refusal(out, &Refusal::NAME),
        }
    }

    pub fn tell_kind(&self, name: &Name, out: &mut Vec<u8>) -> Result<(), NoMemory>
        requires { out.old.items ≡ [] }
        ensures { Does result (tells self.now (λ v. kind_text v.kind) (var_of name.now self.now.model.applied)) self.now out.new.items }
    {
        match self.model.var(name.as_bytes()) {
            Some(var) => append_kind(out, var.kind),
            None => append_refusal(out, &Refusal::NAME),
        }
    }

    pub fn tell_side(&self, name: &Name, out: &mut Vec<u8>) -> Result<(), NoMemory>
        requires { out.old.items ≡ [] }
        ensures { Does result (tells self.now (λ r. number_text r.rhs) (row_of name.now self.now.model.applied)) self.now out.new.items }
    {
        match self.model.row(name.as_bytes()) {
            Some(row) => append_number(out, &row.rhs),
            None => append_refusal(out, &Refusal::NAME),
        }
    }

    pub fn tell_sense(&self, name: &Name, out: &mut Vec<u8>) -> Result<(), NoMemory>
        requires { out.old.items ≡ [] }
        ensures { Does result (tells self.now (λ r. sense_text r.sense) (row_of name.now self.now.model.applied)) self.now out.new.items }
    {
        match self.model.row(name.as_bytes()) {
            Some(row) => append_sense(out, row.sense),
            None => append_refusal(out, &Refusal::NAME),
        }
    }

    pub fn tell_coefficient(
        &self,
        row: &Name,
        var: &Name,
        out: &mut Vec<u8>,
    ) -> Result<(), NoMemory>
        requires { out.old.items ≡ [] }
        ensures { Does result (tells self.now number_text (coefficient_at row.now var.now self.now.model.applied)) self.now out.new.items }
    {
        match self.model.coefficient(row.as_bytes(), var.as_bytes()) {
            Some(coefficient) => append_number(out, &coefficient),
            None => append_refusal(out, &Refusal::NAME),
        }
    }

    pub fn tell_tag(&self, name: &Name, out: &mut Vec<u8>) -> Result<(), NoMemory>
        requires { out.old.items ≡ [] }
        ensures { Does result (var_tag_effect self.now (var_of name.now self.now.model.applied)) self.now out.new.items }
    {
        let Some(var) = self.model.var(name.as_bytes()) else {
            return append_refusal(out, &Refusal::NAME);
        };
        match &var.tag {
            Some(tag) => append_tag(out, tag.as_bytes()),
            None => append_refusal(out, &Refusal::NOTAG),
        }
    }

    pub fn count_vars(&self, out: &mut Vec<u8>) -> Result<(), NoMemory>
        requires { out.old.items ≡ [] }
        ensures { Does result (says self.now (count_text (length self.now.model.applied.vars))) self.now out.new.items }
    {
        append_count(out, self.model.applied().vars.len() as u64)
    }

    pub fn count_rows(&self, out: &mut Vec<u8>) -> Result<(), NoMemory>
        requires { out.old.items ≡ [] }
        ensures { Does result (says self.now (count_text (length self.now.model.applied.rows))) self.now out.new.items }
    {
        append_count(out, self.model.applied().rows.len() as u64)
    }

    pub fn tell_parameter(&self, name: &Text, out: &mut Vec<u8>) -> Result<(), NoMemory>
        requires { out.old.items ≡ [] }
        ensures { Does result (get_effect self.now (get_of name.now self.now.params)) self.now out.new.items }
    {
        match get(&self.params, name.as_bytes()) {
            Ok(value) => append_whole(out, value),
            Err(refusal) => append_refusal(out, &refusal),
        }
    }
}
