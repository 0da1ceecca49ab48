//! Texts written entry by entry.

ghost use Rattle.std.specs.Prelude.{◌≡◌, ◌++◌, ◌∷◌, [], IfOk, OnOk, codes, map, flat_map};
ghost use Rattle.cert_text.specs.Entries.{HasNumbers, IsAdded};
ghost use Rattle.cert_text.specs.Spelling.{IsWritable, Spells, cert_entries, node_entries, outcome_entries, point_entries, weight_entries, wide_entries};
ghost use Rattle.cert_text.specs.declared.entry.Entry.TheVariants as entry;

use crate::entry::{Claim, Entry, Side, Vector};
use base_names::{NoMemory, Text, append};
use frac128::Frac;
use model_data::{Cert, CertNode, Outcome, Point, Weight, Weights, WideAt};
use std::alloc::Global;

/// The text of an outcome with its certificate.
pub fn write(alloc: Global, outcome: &Outcome, cert: &Cert) -> Result<Text, NoMemory>
    requires { IsWritable outcome.now cert.now }
    ensures { IfOk result (λ text. Spells text outcome.now cert.now) }
{
    let mut out = Vec::new(alloc);
    write_outcome(&mut out, outcome)?;
    write_cert(&mut out, cert)?;
    write_entry(&mut out, Entry::End)?;
    Ok(Text::of(out))
}

/// Adds the line of the entry. Each entry that the program holds has the numbers of a line.
fn write_entry(out: &mut Vec<u8>, entry: Entry) -> Result<(), NoMemory>
    ensures { OnOk result (IsAdded out.old.items out.new.items (entry ∷ [])) }
{
    has_numbers(&entry);
    append(out, format_args!("{entry}\n"))
}

/// Does nothing, and tells a proof that an entry that the program holds has its numbers.
fn has_numbers(entry: &Entry)
    ensures { HasNumbers entry.now }
{
    match entry {
        Entry::Outcome(status, pivots, nodes, work) => {
            let _in_range = (*status, *pivots, *nodes, *work);
        }
        Entry::Value(value) | Entry::Component(_, value) => value.kept(),
        Entry::Wide(WideAt { at, wide }) => {
            let _in_range = *at;
            wide.left.kept();
            wide.right.kept();
        }
        Entry::Split(var, at) => {
            let _in_range = (*var, *at);
        }
        Entry::Weight(_, Weight { place, weight }) => {
            let _in_range = *place;
            weight.kept();
        }
        Entry::Nothing | Entry::Ray | Entry::Leaf(_) | Entry::End => {}
    }
}

fn write_outcome(out: &mut Vec<u8>, outcome: &Outcome) -> Result<(), NoMemory>
    ensures { OnOk result (IsAdded out.old.items out.new.items (outcome_entries outcome.now)) }
{
    let Outcome {
        status,
        pivots,
        nodes,
        work,
        point,
        wide,
    } = outcome;
    write_entry(out, Entry::Outcome(*status, *pivots, *nodes, *work))?;
    write_point(out, point)?;
    write_wide(out, wide)
}

fn write_point(out: &mut Vec<u8>, point: &Option<Point>) -> Result<(), NoMemory>
    ensures { OnOk result (IsAdded out.old.items out.new.items (point_entries point.now)) }
{
    match point {
        Some(point) => {
            write_entry(out, Entry::Value(point.value))?;
            write_vector(out, Vector::X, point.xs.as_slice())
        }
        None => Ok(()),
    }
}

fn write_wide(out: &mut Vec<u8>, wide: &Option<WideAt>) -> Result<(), NoMemory>
    ensures { OnOk result (IsAdded out.old.items out.new.items (wide_entries wide.now)) }
{
    match wide {
        Some(wide) => write_entry(out, Entry::Wide(*wide)),
        None => Ok(()),
    }
}

fn write_vector(out: &mut Vec<u8>, vector: Vector, values: &[Frac]) -> Result<(), NoMemory>
    ensures { OnOk result (IsAdded out.old.items out.new.items (map (entry.Component vector) values.now)) }
{
    for value in values {
        write_entry(out, Entry::Component(vector, *value))?;
    }
    Ok(())
}

fn write_cert(out: &mut Vec<u8>, cert: &Cert) -> Result<(), NoMemory>
    ensures { OnOk result (IsAdded out.old.items out.new.items (cert_entries cert.now)) }
{
    match cert {
        Cert::Nothing => write_entry(out, Entry::Nothing),
        Cert::Ray(point, direction) => {
            write_entry(out, Entry::Ray)?;
            write_vector(out, Vector::P, point.as_slice())?;
            write_vector(out, Vector::D, direction.as_slice())
        }
        Cert::Tree(nodes) => write_nodes(out, nodes.as_slice()),
    }
}

fn write_nodes(out: &mut Vec<u8>, nodes: &[CertNode]) -> Result<(), NoMemory>
    ensures { OnOk result (IsAdded out.old.items out.new.items (flat_map node_entries nodes.now)) }
{
    for node in nodes {
        write_node(out, node)?;
    }
    Ok(())
}

fn write_node(out: &mut Vec<u8>, node: &CertNode) -> Result<(), NoMemory>
    ensures { OnOk result (IsAdded out.old.items out.new.items (node_entries node.now)) }
{
    match node {
        CertNode::Split(var, at) => write_entry(out, Entry::Split(*var, *at)),
        CertNode::Bound(weights) => write_leaf(out, Claim::Bound, weights),
        CertNode::Farkas(weights) => write_leaf(out, Claim::Farkas, weights),
    }
}

fn write_leaf(out: &mut Vec<u8>, claim: Claim, weights: &Weights) -> Result<(), NoMemory>
    ensures { OnOk result (IsAdded out.old.items out.new.items (entry.Leaf claim ∷ weight_entries weights.now)) }
{
    write_entry(out, Entry::Leaf(claim))?;
    write_weights(out, Side::Row, weights.rows.as_slice())?;
    write_weights(out, Side::Lower, weights.lows.as_slice())?;
    write_weights(out, Side::Upper, weights.ups.as_slice())
}

fn write_weights(out: &mut Vec<u8>, side: Side, weights: &[Weight]) -> Result<(), NoMemory>
    ensures { OnOk result (IsAdded out.old.items out.new.items (map (entry.Weight side) weights.now)) }
{
    for weight in weights {
        write_entry(out, Entry::Weight(side, *weight))?;
    }
    Ok(())
}
