//! A whole certificate.
ghost use Rattle.std.specs.Prelude.{◌≡◌, ◌↔◌, [], All, IfOk, IsTrue, Some};
ghost use Rattle.frac128.specs.declared.operations.Wide.{Wide};
ghost use Rattle.model_data.specs.Lawful.{IsLawful};
ghost use Rattle.model_data.specs.declared.solution.Point.{Point as PointDef};
ghost use Rattle.solve_defs.specs.Bounds.{effective_bounds};
ghost use Rattle.solve_defs.specs.Certificates.{certificate_looks, is_certificate_for, is_point_for, looks, point_looks, value_of, verdict};
ghost use Rattle.solve_defs.specs.Looks.{verdict_of};
ghost use Rattle.solve_defs.specs.Points.{HasNoPoint, IsBestPoint, IsFeasiblePoint, IsUnbounded};
ghost use Rattle.solve_defs.specs.declared.status.TheConstants.{INFEASIBLE, OPTIMAL, UNBOUNDED};
ghost use Rattle.solve_defs.specs.declared.verdict.Place.{Place};
ghost use Rattle.solve_defs.specs.declared.verdict.Verdict.TheVariants.{Invalid, TooWide, Valid};
ghost use Rattle.cert_check.specs.Countable.{IsCountable};
ghost use Rattle.cert_check.specs.Found.{Finds, verdict_by};
ghost use Rattle.cert_check.specs.Failures.{FailsAt, IsFirst, Passes, Refuses};

use crate::bounds::{Bounds, own_bounds};
use crate::failure::{Failure, look};
use crate::point::point_looks;
use crate::ray::ray_looks;
use crate::shape::has_shape;
use crate::tree::tree_looks;
use base_names::{NoMemory, OrMemory};
use frac128::Frac;
use model_data::{Cert, Model, Outcome, Point};
use solve_defs::{Place, Verdict};
use std::alloc::Global;

/// Whether the certificate shows the outcome right, or else the first look that doesn't hold or the first operation that doesn't
/// fit. A tree has fewer than 2^32 nodes.
///
/// Where it is valid, OPTIMAL has a best point, INFEASIBLE no point and UNBOUNDED no bound, and a point that is kept is feasible
/// with its value, with every status.
pub fn check(alloc: Global, m: &Model, o: &Outcome, cert: &Cert) -> Result<Verdict, NoMemory>
    requires lawful { IsLawful m.now }
    requires countable { IsCountable cert.now }
    ensures verdict { IfOk result (λ v. v ≡ verdict m.now o.now cert.now) }
    ensures valid { IfOk result (λ v. (v ≡ Valid) ↔ All Passes (looks m.now o.now cert.now)) }
    ensures invalid { IfOk result (λ v. (place : Place) → (v ≡ Invalid place) ↔ IsFirst (FailsAt place) (looks m.now o.now cert.now)) }
    ensures too_wide { IfOk result (λ v. (wide : Wide) → (v ≡ TooWide wide) ↔ IsFirst (Refuses wide) (looks m.now o.now cert.now)) }
    ensures best { IfOk result (λ v. v ≡ Valid → o.now.status ≡ OPTIMAL → (p : PointDef) × (o.now.point ≡ Some p) × IsBestPoint m.now p) }
    ensures no_point { IfOk result (λ v. v ≡ Valid → o.now.status ≡ INFEASIBLE → HasNoPoint m.now) }
    ensures unbounded { IfOk result (λ v. v ≡ Valid → o.now.status ≡ UNBOUNDED → IsUnbounded m.now) }
    ensures point { IfOk result (λ v. v ≡ Valid → (p : PointDef) → o.now.point ≡ Some p → IsFeasiblePoint m.now p) }
{
    decided(alloc, m, o, cert)
}

fn decided(alloc: Global, m: &Model, o: &Outcome, cert: &Cert) -> Result<Verdict, NoMemory>
    requires lawful { IsLawful m.now }
    requires countable { IsCountable cert.now }
    ensures { IfOk result (λ v. v ≡ verdict_of (looks m.now o.now cert.now)) }
{
    match all_looks(alloc, m, o, cert) {
        Ok(()) => Ok(Verdict::Valid),
        Err(OrMemory::Fault(failure)) => Ok(failure.verdict()),
        Err(OrMemory::NoMemory) => Err(NoMemory),
    }
}

/// Each look in order.
fn all_looks(alloc: Global, m: &Model, o: &Outcome, cert: &Cert) -> Result<(), OrMemory<Failure>>
    requires lawful { IsLawful m.now }
    requires countable { IsCountable cert.now }
    ensures { Finds result (verdict_of (looks m.now o.now cert.now)) }
{
    look(Place::Shape, has_shape(m, o, cert))?;
    let bounds = root_bounds(alloc, m)?;
    kept_point(m, &o.point)?;
    certificate(alloc, m, bounds, o, cert)
}

/// The bounds of each variable where no cut holds.
fn root_bounds(alloc: Global, m: &Model) -> Result<Vec<Bounds>, NoMemory>
    ensures { IfOk result (λ bounds. bounds.items ≡ effective_bounds m.now []) }
{
    own_bounds(alloc, m.vars.as_slice())
}

fn kept_point(m: &Model, point: &Option<Point>) -> Result<(), Failure>
    requires lawful { IsLawful m.now }
    requires fits { IsTrue (is_point_for m.now point.now) }
    ensures { verdict_by result ≡ verdict_of (point_looks m.now point.now) }
{
    match point {
        Some(point) => point_looks(m, point),
        None => Ok(()),
    }
}

/// What shows the outcome right.
fn certificate(
    alloc: Global,
    m: &Model,
    bounds: Vec<Bounds>,
    o: &Outcome,
    cert: &Cert,
) -> Result<(), OrMemory<Failure>>
    requires lawful { IsLawful m.now }
    requires countable { IsCountable cert.now }
    requires fits { IsTrue (is_certificate_for m.now o.now cert.now) }
    requires bounds { bounds.items ≡ effective_bounds m.now [] }
    ensures { Finds result (verdict_of (certificate_looks m.now o.now cert.now)) }
{
    match cert {
        Cert::Nothing => Ok(()),
        Cert::Ray(point, ray) => Ok(ray_looks(
            m,
            bounds.as_slice(),
            point.as_slice(),
            ray.as_slice(),
        )?),
        Cert::Tree(nodes) => tree_looks(alloc, m, bounds, &value(&o.point), nodes.as_slice()),
    }
}

/// The value of a point that is kept.
fn value(point: &Option<Point>) -> Frac
    ensures { result ≡ value_of point.now }
{
    match point {
        Some(point) => point.value,
        None => Frac::zero(),
    }
}
