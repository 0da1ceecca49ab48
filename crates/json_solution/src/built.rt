//! The value that is printed.

ghost use Rattle.std.specs.Prelude.{◌≡◌, ◌++◌, ◌∷◌, [], None, Some, All, IfOk, IfSome, OnOk, filter_map, map, zip, string_bytes};
ghost use Rattle.frac128.specs.Text.{canonical_text};
ghost use Rattle.model_data.specs.Names.{IsTag};
ghost use Rattle.serde_json.specs.View.{view};
ghost use Rattle.json_solution.specs.Built.{info_data, info_with, solution_data, var_data};
ghost use Rattle.json_solution.specs.Solution.{HasTags, listed_var};

use base_names::{NoMemory, Tag};
use frac128::Frac;
use model_data::{Model, Outcome, Var};
use serde_json::{Value, json};
use std::alloc::Global;
use std::str;

/// The whole solution.
pub fn solution(
    alloc: Global,
    model: &Model,
    outcome: &Outcome,
    detail: u8,
) -> Result<Value, NoMemory>
    requires { HasTags model.now }
    ensures { IfOk result (λ v. view v ≡ solution_data model.now outcome.now detail) }
{
    let vars = match &outcome.point {
        None => Vec::new(alloc),
        Some(point) => listed(alloc, model.vars.as_slice(), point.xs.as_slice(), detail)?,
    };
    let info = info(alloc, outcome)?;
    let vars = Value::Array(vars);
    Ok(json!(in alloc; {"SolutionInfo": &info, "Vars": &vars})?)
}

/// How the solve ended.
fn info(alloc: Global, outcome: &Outcome) -> Result<Value, NoMemory>
    ensures { IfOk result (λ v. view v ≡ info_data outcome.now) }
{
    match &outcome.point {
        None => info_without_point(alloc, outcome),
        Some(point) => info_of_value(alloc, outcome, &point.value),
    }
}

fn info_without_point(alloc: Global, outcome: &Outcome) -> Result<Value, NoMemory>
    ensures { IfOk result (λ v. view v ≡ info_with outcome.now None) }
{
    Ok(json!(in alloc; {
        "IterCount": outcome.pivots, "NodeCount": outcome.nodes, "SolCount": 0u64,
        "Status": outcome.status, "Work": outcome.work
    })?)
}

fn info_of_value(alloc: Global, outcome: &Outcome, value: &Frac) -> Result<Value, NoMemory>
    ensures { IfOk result (λ v. view v ≡ info_with outcome.now (Some value.now)) }
{
    let value = number_text(alloc, value)?;
    let value = value.as_str();
    Ok(json!(in alloc; {
        "IterCount": outcome.pivots, "NodeCount": outcome.nodes, "ObjVal": value, "SolCount": 1u64,
        "Status": outcome.status, "Work": outcome.work
    })?)
}

/// The variables that are listed, with their values.
fn listed(alloc: Global, vars: &[Var], xs: &[Frac], detail: u8) -> Result<Vec<Value>, NoMemory>
    requires { All (λ v. IfSome v.tag IsTag) vars.now }
    ensures { IfOk result (λ list. map view list.items ≡ map var_data (filter_map (listed_var detail) (zip vars.now xs.now))) }
{
    let mut list = Vec::new(alloc);
    let count = vars.len().min(xs.len());
    for place in 0..count {
        add_var(alloc, &mut list, &vars[place], &xs[place], detail)?;
    }
    Ok(list)
}

/// Adds one variable, if it is listed.
fn add_var(
    alloc: Global,
    list: &mut Vec<Value>,
    var: &Var,
    x: &Frac,
    detail: u8,
) -> Result<(), NoMemory>
    requires { IfSome var.now.tag IsTag }
    ensures { OnOk result (map view list.new.items ≡ map view list.old.items ++ map var_data (filter_map (listed_var detail) ((var.now, x.now) ∷ []))) }
{
    match &var.tag {
        None => Ok(()),
        Some(_) if detail == 0 && x.is_zero() => Ok(()),
        Some(tag) => {
            let value = var_value(alloc, tag, x)?;
            list.push(value)?;
            Ok(())
        }
    }
}

fn var_value(alloc: Global, tag: &Tag, x: &Frac) -> Result<Value, NoMemory>
    requires { IsTag tag.now }
    ensures { IfOk result (λ v. view v ≡ var_data (tag.now, x.now)) }
{
    let text = number_text(alloc, x)?;
    Ok(json!(in alloc; {"VTag": [tag_text(tag)], "X": text.as_str()})?)
}

fn number_text(alloc: Global, x: &Frac) -> Result<String, NoMemory>
    ensures { IfOk result (λ text. string_bytes text ≡ canonical_text x.now) }
{
    Ok(format!(in alloc; "{x}")?)
}

/// The tag as text, since its bytes are ASCII.
fn tag_text(tag: &Tag) -> &str
    requires { IsTag tag.now }
    ensures { result.now ≡ tag.now }
{
    match str::from_utf8(tag.as_bytes()) {
        Ok(text) => text,
        Err(_) => unreachable!(),
    }
}
