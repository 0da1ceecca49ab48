//! How far a text has come, and what one more line does to it.

ghost use Rattle.std.specs.Prelude.{◌≡◌, ◌==◌, ◌^◌, ◌<◌, [], IfOk, None, is_some, not, if◌then◌else◌};
ghost use Rattle.std.proofs.Math.Bool.{beq};
ghost use Rattle.solve_defs.specs.declared.status.TheConstants.{NUMERIC as numeric};
ghost use Rattle.cert_text.specs.declared.entry.Entry.TheVariants as entry;
ghost use Rattle.cert_text.specs.declared.entry.Vector.TheVariants as vector;
ghost use Rattle.cert_text.specs.Stages.{begun, behind_nothing, behind_outcome, behind_ray, begun_cert, is_empty, missing_of, no_ray, next, with_coordinate};

use crate::entry::{Entry, Vector};
use crate::leaf::more;
use crate::proof::Proof;
use crate::tree::{begun_tree, behind_tree};
use base_names::{NoMemory, Seq};
use frac128::Frac;
use model_data::{Cert, CertNode, Outcome, Point, WideAt};
use solve_defs::NUMERIC;
use std::alloc::Global;

/// How far a text has come, with what its lines have told.
#[derive(Debug, Drop)]
pub enum Stage {
    /// No line has come.
    Start,
    /// The outcome, as far as it has come.
    Outcome(Outcome),
    /// There is no certificate.
    Nothing(Outcome),
    /// A ray, as far as it has come.
    Ray(Outcome, RaySoFar),
    /// How many subtrees are to come, the nodes before the last one, and the last one as far as it has come.
    Tree(Outcome, u64, Seq<CertNode>, CertNode),
    /// All has come.
    Whole(Proof),
}

/// The point and the direction of a ray, as far as they have come.
#[derive(Debug, Drop)]
pub struct RaySoFar {
    pub point: Seq<Frac>,
    pub direction: Seq<Frac>,
}

impl Stage {
    /// The stage behind one more line. `None`: the line can't stand there.
    pub(crate) fn next(self, alloc: Global, entry: Entry) -> Result<Option<Stage>, NoMemory>
        requires { missing_of self < 2 ^ 32 }
        ensures { IfOk result (λ stage. stage ≡ next self entry) }
    {
        match self {
            Stage::Start => Ok(begun(entry)),
            Stage::Outcome(outcome) => behind_outcome(alloc, outcome, entry),
            Stage::Nothing(outcome) => Ok(behind_nothing(outcome, entry)),
            Stage::Ray(outcome, ray) => behind_ray(outcome, ray, entry),
            Stage::Tree(outcome, missing, nodes, last) => {
                behind_tree(alloc, outcome, missing, nodes, last, entry)
            }
            Stage::Whole(_) => Ok(None),
        }
    }
}

/// The stage behind the first line.
fn begun(entry: Entry) -> Option<Stage>
    ensures { result ≡ begun entry }
{
    match entry {
        Entry::Outcome(status, pivots, nodes, work) => Some(Stage::Outcome(Outcome {
            status,
            pivots,
            nodes,
            work,
            point: None,
            wide: None,
        })),
        _ => None,
    }
}

fn behind_outcome(alloc: Global, outcome: Outcome, entry: Entry) -> Result<Option<Stage>, NoMemory>
    ensures { IfOk result (λ stage. stage ≡ behind_outcome outcome entry) }
{
    match &entry {
        Entry::Value(value) => Ok(with_value(alloc, outcome, *value)),
        Entry::Component(Vector::X, x) => with_coordinate(outcome, *x),
        Entry::Wide(wide) => Ok(with_wide(outcome, *wide)),
        _ => Ok(allowed_cert(alloc, outcome, entry)),
    }
}

/// The first line of a certificate, where the outcome is whole.
fn allowed_cert(alloc: Global, outcome: Outcome, entry: Entry) -> Option<Stage>
    ensures { result ≡ (if beq (is_some outcome.wide) (outcome.status == numeric) then begun_cert outcome entry else None) }
{
    if has_right_wide(&outcome) {
        begun_cert(alloc, outcome, entry)
    } else {
        None
    }
}

/// The value of a point comes first.
fn with_value(alloc: Global, outcome: Outcome, value: Frac) -> Option<Stage>
    ensures { result ≡ behind_outcome outcome (entry.Value value) }
{
    if has_point(&outcome) || has_wide(&outcome) {
        return None;
    }
    let point = Some(lone_value(alloc, value));
    Some(Stage::Outcome(Outcome { point, ..outcome }))
}

/// What doesn't fit is told once, and only where it has ended the solve.
fn with_wide(outcome: Outcome, wide: WideAt) -> Option<Stage>
    ensures { result ≡ behind_outcome outcome (entry.Wide wide) }
{
    if has_wide(&outcome) || outcome.status != NUMERIC {
        return None;
    }
    let wide = Some(wide);
    Some(Stage::Outcome(Outcome { wide, ..outcome }))
}

fn has_point(outcome: &Outcome) -> bool
    ensures { result ≡ is_some outcome.now.point }
{
    outcome.point.is_some()
}

fn has_wide(outcome: &Outcome) -> bool
    ensures { result ≡ is_some outcome.now.wide }
{
    outcome.wide.is_some()
}

/// Whether an operation that doesn't fit is told exactly where one has ended the solve.
fn has_right_wide(outcome: &Outcome) -> bool
    ensures { result ≡ beq (is_some outcome.now.wide) (outcome.now.status == numeric) }
{
    has_wide(outcome) == (outcome.status == NUMERIC)
}

/// A point of which only the value has come.
fn lone_value(alloc: Global, value: Frac) -> Point
    ensures { result ≡ record { xs = []; value = value } }
{
    Point {
        xs: Seq::of(Vec::new(alloc)),
        value,
    }
}

/// One more variable of the point.
fn with_coordinate(outcome: Outcome, x: Frac) -> Result<Option<Stage>, NoMemory>
    ensures { IfOk result (λ stage. stage ≡ with_coordinate outcome x outcome.point outcome.wide) }
{
    match (outcome.point, outcome.wide) {
        (Some(point), None) => {
            let point = Some(Point {
                xs: more(point.xs, x)?,
                value: point.value,
            });
            Ok(Some(Stage::Outcome(Outcome {
                status: outcome.status,
                pivots: outcome.pivots,
                nodes: outcome.nodes,
                work: outcome.work,
                point,
                wide: None,
            })))
        }
        _ => Ok(None),
    }
}

/// The first line of a certificate.
fn begun_cert(alloc: Global, outcome: Outcome, entry: Entry) -> Option<Stage>
    ensures { result ≡ begun_cert outcome entry }
{
    match entry {
        Entry::Nothing => Some(Stage::Nothing(outcome)),
        Entry::Ray => Some(Stage::Ray(outcome, no_ray(alloc))),
        _ => begun_tree(alloc, outcome, entry),
    }
}

fn no_ray(alloc: Global) -> RaySoFar
    ensures { result ≡ no_ray }
{
    RaySoFar {
        point: Seq::of(Vec::new(alloc)),
        direction: Seq::of(Vec::new(alloc)),
    }
}

fn behind_nothing(outcome: Outcome, entry: Entry) -> Option<Stage>
    ensures { result ≡ behind_nothing outcome entry }
{
    match entry {
        Entry::End => Some(Stage::Whole(Proof {
            outcome,
            cert: Cert::Nothing,
        })),
        _ => None,
    }
}

/// The lines of the point come before those of the direction.
fn behind_ray(outcome: Outcome, ray: RaySoFar, entry: Entry) -> Result<Option<Stage>, NoMemory>
    ensures { IfOk result (λ stage. stage ≡ behind_ray outcome ray entry) }
{
    match &entry {
        Entry::Component(Vector::P, x) => with_point(outcome, ray, *x),
        Entry::Component(Vector::D, x) => with_direction(outcome, ray, *x),
        Entry::End => Ok(Some(Stage::Whole(Proof {
            outcome,
            cert: Cert::Ray(ray.point, ray.direction),
        }))),
        _ => Ok(None),
    }
}

/// One more variable of a ray's point, of whose direction nothing has come.
fn with_point(outcome: Outcome, ray: RaySoFar, x: Frac) -> Result<Option<Stage>, NoMemory>
    ensures { IfOk result (λ stage. stage ≡ behind_ray outcome ray (entry.Component vector.P x)) }
{
    if has_direction(&ray) {
        return Ok(None);
    }
    let ray = RaySoFar {
        point: more(ray.point, x)?,
        direction: ray.direction,
    };
    Ok(Some(Stage::Ray(outcome, ray)))
}

/// One more variable of a ray's direction.
fn with_direction(outcome: Outcome, ray: RaySoFar, x: Frac) -> Result<Option<Stage>, NoMemory>
    ensures { IfOk result (λ stage. stage ≡ behind_ray outcome ray (entry.Component vector.D x)) }
{
    let ray = RaySoFar {
        point: ray.point,
        direction: more(ray.direction, x)?,
    };
    Ok(Some(Stage::Ray(outcome, ray)))
}

/// Whether a line of the direction has come.
fn has_direction(ray: &RaySoFar) -> bool
    ensures { result ≡ not (is_empty ray.now.direction) }
{
    !ray.direction.is_empty()
}
