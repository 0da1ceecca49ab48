//! The tables beside a model.
ghost use Rattle.std.specs.Prelude.{◌≡◌, [], IfOk, List, bytes_eq, map, ℕ};
ghost use Rattle.std.specs.List.{list_any};
ghost use Rattle.model_data.specs.Lawful.{AreDistinct, IsLawful};
ghost use Rattle.model_core.specs.Indexed.{HasDistinctTags, IsIndexOf};
ghost use Rattle.model_core.specs.Named.{has_tag};

use crate::deletion::count_terms;
use crate::texts::Texts;
use base_names::NoMemory;
use model_data::{Model, Row, Var};
use std::alloc::Global;

/// By what the names and tags of a model are found, and how many terms it has.
#[derive(Drop)]
pub(crate) struct Tables {
    /// The names of the variables, by their places.
    pub(crate) vars: Texts,
    /// The names of the rows, by their places.
    pub(crate) rows: Texts,
    /// The tags of the variables, in any order.
    pub(crate) tags: Texts,
    /// The terms of all rows.
    pub(crate) terms: usize,
}

impl Tables {
    /// The tables of a model with nothing in it. They take no memory.
    pub(crate) fn new(alloc: Global) -> Tables
        ensures { (result.vars.texts ≡ []) × (result.rows.texts ≡ []) × (result.tags.texts ≡ []) × (result.terms ≡ 0) }
    {
        Tables {
            vars: Texts::new(alloc),
            rows: Texts::new(alloc),
            tags: Texts::new(alloc),
            terms: 0,
        }
    }

    /// The tables of a model.
    pub(crate) fn of(alloc: Global, model: &Model) -> Result<Tables, NoMemory>
        requires { IsLawful model.now }
        ensures { IfOk result (λ tables. IsIndexOf tables model.now) }
    {
        Ok(Tables {
            vars: var_names(alloc, model.vars.as_slice())?,
            rows: row_names(alloc, model.rows.as_slice())?,
            tags: tags(alloc, model.vars.as_slice())?,
            terms: count_terms(model),
        })
    }
}

fn var_names(alloc: Global, vars: &[Var]) -> Result<Texts, NoMemory>
    requires { AreDistinct (map (λ v. v.name) vars.now) }
    ensures { IfOk result (λ names. names.texts ≡ map (λ v. v.name) vars.now) }
{
    let mut names = Texts::new(alloc);
    for var in vars {
        names.add(alloc, var.name.as_bytes())?;
    }
    Ok(names)
}

fn row_names(alloc: Global, rows: &[Row]) -> Result<Texts, NoMemory>
    requires { AreDistinct (map (λ r. r.name) rows.now) }
    ensures { IfOk result (λ names. names.texts ≡ map (λ r. r.name) rows.now) }
{
    let mut names = Texts::new(alloc);
    for row in rows {
        names.add(alloc, row.name.as_bytes())?;
    }
    Ok(names)
}

fn tags(alloc: Global, vars: &[Var]) -> Result<Texts, NoMemory>
    requires { HasDistinctTags vars.now }
    ensures { IfOk result (λ tags. (tag : List ℕ) → list_any (bytes_eq tag) tags.texts ≡ list_any (has_tag tag) vars.now) }
{
    let mut tags = Texts::new(alloc);
    for var in vars {
        if let Some(tag) = &var.tag {
            tags.add(alloc, tag.as_bytes())?;
        }
    }
    Ok(tags)
}
