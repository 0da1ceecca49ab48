//! Whether names and tags are told apart, by a table.
ghost use Rattle.std.specs.Prelude.{◌≡◌, [], IfOk, IsTrue, filter_map, map};
ghost use Rattle.rec_format.specs.Orderly as defs;

use crate::texts::Texts;
use base_names::{NoMemory, Tag};
use model_data::{Model, Row, Var};
use std::alloc::Global;

/// Whether no two variables have the same name, no two rows, and no two variables the same tag.
pub(crate) fn has_distinct_names(alloc: Global, model: &Model) -> Result<bool, NoMemory>
    ensures { IfOk result (λ yes. yes ≡ defs.has_distinct_names model.now) }
{
    if !are_var_names_new(alloc, model.vars.as_slice())? {
        return Ok(false);
    }
    if !are_row_names_new(alloc, model.rows.as_slice())? {
        return Ok(false);
    }
    are_tags_new(alloc, model.vars.as_slice())
}

fn are_var_names_new(alloc: Global, vars: &[Var]) -> Result<bool, NoMemory>
    ensures { IfOk result (λ yes. yes ≡ defs.are_new [] (map (λ v. v.name) vars.now)) }
{
    let mut seen = Texts::new(alloc);
    for var in vars {
        let is_new = seen.add(var.name.as_bytes())?;
        if !is_new {
            return Ok(false);
        }
    }
    Ok(true)
}

fn are_row_names_new(alloc: Global, rows: &[Row]) -> Result<bool, NoMemory>
    ensures { IfOk result (λ yes. yes ≡ defs.are_new [] (map (λ r. r.name) rows.now)) }
{
    let mut seen = Texts::new(alloc);
    for row in rows {
        let is_new = seen.add(row.name.as_bytes())?;
        if !is_new {
            return Ok(false);
        }
    }
    Ok(true)
}

fn are_tags_new(alloc: Global, vars: &[Var]) -> Result<bool, NoMemory>
    ensures { IfOk result (λ yes. yes ≡ defs.are_new [] (filter_map (λ v. v.tag) vars.now)) }
{
    let mut seen = Texts::new(alloc);
    for var in vars {
        let is_new = add_tag(&mut seen, &var.tag)?;
        if !is_new {
            return Ok(false);
        }
    }
    Ok(true)
}

/// Adds the tag, where there is one that is new, and tells whether it isn't known.
fn add_tag<'a>(seen: &mut Texts<'a>, tag: &'a Option<Tag>) -> Result<bool, NoMemory>
    ensures new { IfOk result (λ new. new ≡ defs.is_new seen.old tag.now) }
    ensures added { IfOk result (λ new. IsTrue new → seen.new ≡ defs.with_new seen.old tag.now) }
{
    match tag {
        Some(tag) => seen.add(tag.as_bytes()),
        None => Ok(true),
    }
}
