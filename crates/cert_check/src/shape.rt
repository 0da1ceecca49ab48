//! What the outcome and the certificate consist of.
ghost use Rattle.std.specs.Prelude.{◌≡◌, List};
ghost use Rattle.std.specs.List.{list_all, list_any};
ghost use Rattle.solve_defs.specs.Certificates.{are_weights_for, are_whole, has_shape, is_bound, is_certificate_for, is_integer_number, is_node_for, is_number_to, is_point_for};
ghost use Rattle.model_data.specs.declared.solution.Cert.TheVariants.{Ray, Tree};
ghost use Rattle.cert_check.specs.Shapes.{goes_with_tree};

use crate::kinds::{are_continuous, is_integer};
use base_names::Seq;
use frac128::{Frac, LIMIT};
use model_data::{Cert, CertNode, Model, Outcome, Point, Var, Weight, Weights};
use solve_defs::{INFEASIBLE, OPTIMAL, UNBOUNDED};

/// Whether the outcome and the certificate go together, and both fit the model.
pub(crate) fn has_shape(m: &Model, o: &Outcome, cert: &Cert) -> bool
    ensures { result ≡ has_shape m.now o.now cert.now }
{
    is_point_for(m, &o.point) && is_certificate_for(m, o, cert)
}

fn is_point_for(m: &Model, point: &Option<Point>) -> bool
    ensures { result ≡ is_point_for m.now point.now }
{
    match point {
        Some(point) => point.xs.len() == m.vars.len(),
        None => true,
    }
}

fn is_certificate_for(m: &Model, o: &Outcome, cert: &Cert) -> bool
    ensures { result ≡ is_certificate_for m.now o.now cert.now }
{
    match cert {
        Cert::Nothing => !(o.status == OPTIMAL || o.status == INFEASIBLE || o.status == UNBOUNDED),
        Cert::Ray(point, ray) => is_ray_for(m, o, point, ray),
        Cert::Tree(nodes) => is_tree_for(m, o, nodes.as_slice()),
    }
}

fn is_ray_for(m: &Model, o: &Outcome, point: &Seq<Frac>, ray: &Seq<Frac>) -> bool
    ensures { result ≡ is_certificate_for m.now o.now (Ray point.now ray.now) }
{
    o.status == UNBOUNDED
        && o.point.is_none()
        && are_continuous(m.vars.as_slice())
        && point.len() == m.vars.len()
        && ray.len() == m.vars.len()
}

fn is_tree_for(m: &Model, o: &Outcome, nodes: &[CertNode]) -> bool
    ensures { result ≡ is_certificate_for m.now o.now (Tree nodes.now) }
{
    are_whole(nodes) && are_nodes_for(m, nodes) && goes_with_tree(o, nodes)
}

fn goes_with_tree(o: &Outcome, nodes: &[CertNode]) -> bool
    ensures { result ≡ goes_with_tree o.now nodes.now }
{
    (o.status == OPTIMAL && o.point.is_some())
        || (o.status == INFEASIBLE && o.point.is_none() && !has_bound(nodes))
}

/// Whether some leaf is bounded by a value.
fn has_bound(nodes: &[CertNode]) -> bool
    ensures { result ≡ list_any is_bound nodes.now }
{
    nodes.iter().any(|node| is_bound(node))
}

fn is_bound(node: &CertNode) -> bool
    ensures { result ≡ is_bound node.now }
{
    match node {
        CertNode::Bound(_) => true,
        CertNode::Split(_, _) | CertNode::Farkas(_) => false,
    }
}

/// Whether the nodes make up one tree, which isn't cut short and has nothing behind it.
fn are_whole(nodes: &[CertNode]) -> bool
    ensures { result ≡ are_whole 1 nodes.now }
{
    let mut missing = 1usize;
    for node in nodes {
        if missing == 0 {
            return false;
        }
        missing = match node {
            CertNode::Split(_, _) => missing + 1,
            CertNode::Bound(_) | CertNode::Farkas(_) => missing - 1,
        };
    }
    missing == 0
}

fn are_nodes_for(m: &Model, nodes: &[CertNode]) -> bool
    ensures { result ≡ list_all (is_node_for m.now) nodes.now }
{
    nodes.iter().all(|node| is_node_for(m, node))
}

/// Whether the numbers of a node are those of integer variables, or of rows and bounds, of the model.
fn is_node_for(m: &Model, node: &CertNode) -> bool
    ensures { result ≡ is_node_for m.now node.now }
{
    match node {
        CertNode::Split(var, k) => {
            is_integer_number(m.vars.as_slice(), *var) && k.unsigned_abs() < LIMIT
        }
        CertNode::Bound(weights) | CertNode::Farkas(weights) => are_weights_for(m, weights),
    }
}

fn is_integer_number(vars: &[Var], number: u32) -> bool
    ensures { result ≡ is_integer_number vars.now number }
{
    if number == 0 {
        return false;
    }
    match vars.get(number as usize - 1) {
        Some(var) => is_integer(var.kind),
        None => false,
    }
}

fn are_weights_for(m: &Model, weights: &Weights) -> bool
    ensures { result ≡ are_weights_for m.now weights.now }
{
    are_numbers_to(m.rows.len(), weights.rows.as_slice())
        && are_numbers_to(m.vars.len(), weights.lows.as_slice())
        && are_numbers_to(m.vars.len(), weights.ups.as_slice())
}

fn are_numbers_to(count: usize, weights: &[Weight]) -> bool
    ensures { result ≡ list_all (λ w. is_number_to count w.place) weights.now }
{
    weights
        .iter()
        .all(|w| 1 <= w.place && w.place as usize <= count)
}
