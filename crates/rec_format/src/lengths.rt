//! How many bytes a spelling has, without making it.
ghost use Rattle.std.specs.Prelude.{◌≡◌, ◌≤◌, ◌+◌, ◌<◌, ◌^◌, ℕ, All, IfSome, flat_map, length};
ghost use Rattle.model_data.specs.Lawful.{IsLawful, IsLawfulVar};
ghost use Rattle.model_data.specs.Names.{IsName, IsTag};
ghost use Rattle.model_data.specs.declared.batch.BatchRecord.TheVariants.{Create, Finish};
ghost use Rattle.model_data.specs.declared.limits.TheConstants.{MAX_ROWS, MAX_TERMS, MAX_VARS};
ghost use Rattle.rec_format.specs.Format.{optional, text};
ghost use Rattle.rec_format.specs.Ids.{batch};
ghost use Rattle.rec_format.specs.Lawful.{IsShortPoint, IsShortResult};
ghost use Rattle.rec_format.specs.Models.{fraction, name as name_format, row as row_format, tag as tag_format, var as var_format};
ghost use Rattle.rec_format.specs.Records.{model_len, record_len};
ghost use Rattle.rec_format.specs.Results.{found as found_format, point as point_format, wide as wide_format};

use base_names::{BatchId, Name, Tag, Text};
use frac128::Frac;
use model_data::{BatchBody, BatchResult, Model, Point, Row, Var, WideAt};

/// The bytes of a fraction.
const FRACTION: u64 = 32;

/// The bytes of a term.
const TERM: u64 = 36;

/// The bytes of parameters.
const PARAMS: u64 = 26;

/// How many bytes of a record spell its model.
#[tactic(auto, using(crate::proofs::ByteCounts::model_length, crate::proofs::LawfulSpelled::few_terms))]
pub fn model_len(model: &Model) -> u64
    requires { IsLawful model.now }
    ensures value { result ≡ model_len model.now }
    ensures bound { result ≤ 2 ^ 34 }
{
    1 + FRACTION + 4 + vars_len(model.vars.as_slice()) + 4 + rows_len(model.rows.as_slice())
}

/// How many bytes spell the record that creates a batch, whichever its attempt is.
#[tactic(auto, using(crate::proofs::ByteCounts::create_length))]
pub fn create_len(id: &BatchId, body: &BatchBody) -> u64
    requires { IsLawful body.now.model }
    ensures { (attempt : ℕ) → result ≡ record_len (Create id.now attempt body.now) }
{
    1 + attempt_len(id) + PARAMS + model_len(&body.model)
}

/// How many bytes spell the record of what a batch found, whichever its attempt is.
#[tactic(auto, using(crate::proofs::ByteCounts::finish_length))]
pub fn finish_len(id: &BatchId, found: &BatchResult) -> u64
    requires { IsShortResult found.now }
    ensures { (attempt : ℕ) → result ≡ record_len (Finish id.now attempt found.now) }
{
    1 + attempt_len(id) + found_len(found)
}

/// How many bytes spell a batch's owner and number, and an attempt.
#[tactic(auto, unfolding(crate::specs::Format::number))]
fn attempt_len(id: &BatchId) -> u64
    ensures value { result ≡ length (batch.write id.now) + 4 }
    ensures bound { result ≤ 64 }
{
    1 + id.owner.as_bytes().len() as u64 + 4 + 4
}

fn vars_len(vars: &[Var]) -> u64
    requires lawful { All IsLawfulVar vars.now }
    requires few { length vars.now ≤ MAX_VARS }
    ensures value { result ≡ length (flat_map var_format.write vars.now) }
    ensures bound { result ≤ 1000000 }
{
    let mut len = 0;
    for var in vars {
        len += var_len(var);
    }
    len
}

#[tactic(auto, using(crate::proofs::ByteCounts::var_length))]
fn var_len(var: &Var) -> u64
    requires { IsLawfulVar var.now }
    ensures value { result ≡ length (var_format.write var.now) }
    ensures bound { result ≤ 700 }
{
    name_len(&var.name)
        + bound_len(&var.lower)
        + bound_len(&var.upper)
        + FRACTION
        + 1
        + tag_len(&var.tag)
}

#[tactic(auto, using(crate::proofs::LawfulSpelled::name_text))]
fn name_len(name: &Name) -> u64
    requires { IsName name.now }
    ensures value { result ≡ length (name_format.write name.now) }
    ensures bound { result ≤ 256 }
{
    1 + name.len() as u64
}

#[tactic(auto, unfolding(crate::specs::Format::number))]
fn bound_len(bound: &Option<Frac>) -> u64
    ensures value { result ≡ length ((optional fraction).write bound.now) }
    ensures bound { result ≤ 33 }
{
    match bound {
        Some(_) => 1 + FRACTION,
        None => 1,
    }
}

#[tactic(auto, using(crate::proofs::LawfulSpelled::tag_text))]
fn tag_len(tag: &Option<Tag>) -> u64
    requires { IfSome tag.now IsTag }
    ensures value { result ≡ length ((optional tag_format).write tag.now) }
    ensures bound { result ≤ 257 }
{
    match tag {
        Some(tag) => 1 + 1 + tag.len() as u64,
        None => 1,
    }
}

fn rows_len(rows: &[Row]) -> u64
    requires names { All (λ r. IsName r.name) rows.now }
    requires few { length rows.now ≤ MAX_ROWS }
    requires few_terms { All (λ r. length r.terms ≤ MAX_TERMS) rows.now }
    ensures value { result ≡ length (flat_map row_format.write rows.now) }
    ensures bound { result ≤ 10000000000 }
{
    let mut len = 0;
    for row in rows {
        len += row_len(row);
    }
    len
}

#[tactic(auto, using(crate::proofs::ByteCounts::row_length))]
fn row_len(row: &Row) -> u64
    requires name { IsName row.now.name }
    requires few { length row.now.terms ≤ MAX_TERMS }
    ensures value { result ≡ length (row_format.write row.now) }
    ensures bound { result ≤ 10000000 }
{
    name_len(&row.name) + 1 + FRACTION + 4 + TERM * row.terms.len() as u64
}

#[tactic(auto, unfolding(crate::specs::Format::number))]
fn found_len(found: &BatchResult) -> u64
    requires { IsShortResult found.now }
    ensures value { result ≡ length (found_format.write found.now) }
    ensures bound { result ≤ 2 ^ 38 }
{
    1 + 3 * 8
        + point_len(&found.outcome.point)
        + wide_len(&found.outcome.wide)
        + cert_len(&found.cert)
}

#[tactic(auto, using(crate::proofs::ByteCounts::point_length))]
fn point_len(point: &Option<Point>) -> u64
    requires { IfSome point.now IsShortPoint }
    ensures value { result ≡ length ((optional point_format).write point.now) }
    ensures bound { result ≤ 2 ^ 37 + 37 }
{
    match point {
        Some(point) => 1 + 4 + FRACTION * point.xs.len() as u64 + FRACTION,
        None => 1,
    }
}

#[tactic(auto, unfolding(crate::specs::Format::number))]
fn wide_len(wide: &Option<WideAt>) -> u64
    ensures value { result ≡ length ((optional wide_format).write wide.now) }
    ensures bound { result ≤ 74 }
{
    match wide {
        Some(_) => 1 + 8 + 1 + 2 * FRACTION,
        None => 1,
    }
}

fn cert_len(cert: &Option<Text>) -> u64
    requires { IfSome cert.now (λ t. length t < 2 ^ 32) }
    ensures value { result ≡ length ((optional (text 4)).write cert.now) }
    ensures bound { result ≤ 2 ^ 32 + 5 }
{
    match cert {
        Some(cert) => 1 + 4 + cert.len() as u64,
        None => 1,
    }
}
