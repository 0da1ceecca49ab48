//! Sizes counted by hand, names and tags, and a copy of each type with ample memory.
use base_names::{BatchId, NoMemory, Seq, Tag, Text, TryCopy, read_id};
use frac128::{Frac, Op, Wide};
use model_data::{
    AttemptOf, BatchBody, BatchRecord, BatchResult, BatchRow, Cert, CertNode, Direction, Model,
    Outcome, Params, Point, Sense, VarKind, Weight, Weights, WideAt, is_name, is_tag, size,
};
use sample_models::Ratio;
use std::alloc::Global;
use std::test::Fail;

/// Three variables, one of them free and one with both bounds, and three rows, one of them an equality.
fn model(alloc: Global) -> Result<Model, Fail> {
    let (zero, one) = ((0, 1), (1, 1));
    let vars = [
        ("x", None, None, one, VarKind::Continuous),
        ("y", Some(zero), Some(one), one, VarKind::Continuous),
        ("z", Some(zero), None, one, VarKind::Integer),
    ];
    let terms = [(0, one)];
    let rows = [
        ("c", terms.as_slice(), Sense::Less, zero),
        ("d", terms.as_slice(), Sense::Greater, zero),
        ("e", terms.as_slice(), Sense::Equal, zero),
    ];
    sample_models::model(alloc, Direction::Maximize, one, &vars, &rows)
}

fn with_first_tagged(alloc: Global, model: Model) -> Result<Model, NoMemory> {
    let mut vars = model.vars.into_vec();
    if let Some(var) = vars.first_mut() {
        var.tag = Some(Tag::of(b"tag".to_vec(alloc)?));
    }
    Ok(Model {
        direction: model.direction,
        constant: model.constant,
        vars: Seq::of(vars),
        rows: model.rows,
    })
}

fn of_one_var(
    alloc: Global,
    lower: Option<Ratio>,
    upper: Option<Ratio>,
    kind: VarKind,
) -> Result<Model, Fail> {
    let var = ("x", lower, upper, (1, 1), kind);
    sample_models::model(alloc, Direction::Minimize, (0, 1), &[var], &[])
}

/// The bounds and the kind of the one variable of a model, with the entries of its tableau.
const SIZES: &[(Option<Ratio>, Option<Ratio>, VarKind, u64)] = &[
    (None, None, VarKind::Continuous, 2 * 4),
    (ZERO, None, VarKind::Continuous, 2 * 3),
    (None, ZERO, VarKind::Continuous, 2 * 3),
    (ZERO, ZERO, VarKind::Continuous, 3 * 3),
    (None, None, VarKind::Integer, 3 * 4),
    (None, None, VarKind::Binary, 3 * 4),
    (ZERO, None, VarKind::Binary, 3 * 3),
];

const ZERO: Option<Ratio> = Some((0, 1));

fn has_size(
    alloc: Global,
    lower: Option<Ratio>,
    upper: Option<Ratio>,
    kind: VarKind,
) -> Result<u64, Fail> {
    Ok(size(&of_one_var(alloc, lower, upper, kind)?))
}

#[test]
fn sizes(rt: HostRuntime) -> Result<(), Fail> {
    let alloc = rt.alloc();
    assert!(rt; size(&Model::empty(alloc)) == 4);
    // Rows 1 + 1 + 2 and the second and third variable, columns 2 + 1 + 1.
    assert!(rt; size(&model(alloc)?) == (6 + 2) * (4 + 2));
    for (lower, upper, kind, entries) in SIZES {
        assert!(rt;
            has_size(alloc, *lower, *upper, *kind)? == *entries,
            "{kind:?}"
        );
    }
    Ok(())
}

const NAMES: &[&str] = &["x", "Profit_2{a}!", "lazy", "to", "e2", "infinite", "A.5"];

const NO_NAMES: &[&str] = &[
    "",
    "2x",
    ".x",
    "-x",
    "+",
    "[x",
    "=x",
    "a:b",
    "a\\b",
    "a b",
    "a\u{7f}",
    "Free",
    "ST.",
    "INF",
    "MultI-Objectives",
    "end",
];

const TAGS: &[&str] = &["1:\\", "end", "-"];

const NO_TAGS: &[&str] = &["", "a b", "a\n"];

#[test]
fn names(rt: HostRuntime) {
    for text in NAMES {
        assert!(rt; is_name(text.as_bytes()), "{text}");
    }
    for text in NO_NAMES {
        assert!(rt; !is_name(text.as_bytes()), "{text}");
    }
}

#[test]
fn tags(rt: HostRuntime) {
    for text in TAGS {
        assert!(rt; is_tag(text.as_bytes()), "{text}");
    }
    for text in NO_TAGS {
        assert!(rt; !is_tag(text.as_bytes()), "{text}");
    }
    let long = [b'a'; 256];
    assert!(rt; is_name(&long[1..]) && is_tag(&long[1..]));
    assert!(rt; !is_name(&long) && !is_tag(&long));
}

fn are_usual(params: &Params) -> bool {
    params.iterations == 100_000
        && params.nodes == 10_000
        && params.work == 1_000_000_000_000
        && params.priority == 0
        && params.detail == 0
}

#[test]
fn usual_parameters(rt: HostRuntime) {
    assert!(rt; are_usual(&Params::usual()));
}

fn is_copied<T: TryCopy + PartialEq>(alloc: Global, value: &T) -> Result<bool, NoMemory> {
    Ok(value.try_copy(alloc)? == *value)
}

fn weights(alloc: Global) -> Result<Weights, NoMemory> {
    let weight = Weight {
        place: 1,
        weight: Frac::one(),
    };
    Ok(Weights {
        rows: Seq::of([weight].to_vec(alloc)?),
        lows: Seq::of(Vec::new(alloc)),
        ups: Seq::of([weight, weight].to_vec(alloc)?),
    })
}

fn outcome(alloc: Global) -> Result<Outcome, NoMemory> {
    Ok(Outcome {
        status: 12,
        pivots: 1,
        nodes: 2,
        work: 3,
        point: Some(Point {
            xs: Seq::of([Frac::one(), Frac::zero()].to_vec(alloc)?),
            value: Frac::one(),
        }),
        wide: Some(WideAt {
            at: 4,
            wide: Wide {
                op: Op::Mul,
                left: Frac::one(),
                right: Frac::zero(),
            },
        }),
    })
}

fn tree(alloc: Global) -> Result<Cert, NoMemory> {
    let mut nodes = Vec::new(alloc);
    nodes.push(CertNode::Split(1, -5))?;
    nodes.push(CertNode::Bound(weights(alloc)?))?;
    nodes.push(CertNode::Farkas(weights(alloc)?))?;
    Ok(Cert::Tree(Seq::of(nodes)))
}

fn ray(alloc: Global) -> Result<Cert, NoMemory> {
    Ok(Cert::Ray(
        Seq::of([Frac::one()].to_vec(alloc)?),
        Seq::of(Vec::new(alloc)),
    ))
}

fn certificates_are_copied(alloc: Global) -> Result<bool, NoMemory> {
    Ok(
        is_copied(alloc, &tree(alloc)?)?
            && is_copied(alloc, &ray(alloc)?)?
            && is_copied(alloc, &Cert::Nothing)?,
    )
}

#[test]
fn copies_of_certificates(rt: HostRuntime) {
    assert!(rt; certificates_are_copied(rt.alloc()) == Ok(true));
}

fn body(alloc: Global) -> Result<BatchBody, Fail> {
    Ok(BatchBody {
        model: with_first_tagged(alloc, model(alloc)?)?,
        params: Params::usual(),
    })
}

fn found(alloc: Global) -> Result<BatchResult, NoMemory> {
    Ok(BatchResult {
        outcome: outcome(alloc)?,
        cert: Some(Text::of(b"END".to_vec(alloc)?)),
    })
}

fn row(alloc: Global, id: BatchId) -> Result<BatchRow, Fail> {
    Ok(BatchRow {
        id,
        status: 2,
        attempt: 3,
        body: body(alloc)?,
        result: Some(found(alloc)?),
    })
}

fn rows_are_copied(alloc: Global, id: BatchId) -> Result<bool, Fail> {
    Ok(
        is_copied(alloc, &body(alloc)?)?
            && is_copied(alloc, &found(alloc)?)?
            && is_copied(alloc, &row(alloc, id)?)?,
    )
}

fn create(alloc: Global, id: BatchId) -> Result<BatchRecord, Fail> {
    Ok(BatchRecord::Create(id, 1, body(alloc)?))
}

fn finish(alloc: Global, id: BatchId) -> Result<BatchRecord, NoMemory> {
    Ok(BatchRecord::Finish(id, 1, found(alloc)?))
}

fn lost(alloc: Global, id: BatchId) -> Result<BatchRecord, NoMemory> {
    Ok(BatchRecord::Lost(Seq::of([AttemptOf { id, attempt: 1 }].to_vec(alloc)?)))
}

fn full_records_are_copied(alloc: Global, id: BatchId) -> Result<bool, Fail> {
    Ok(
        is_copied(alloc, &create(alloc, id)?)?
            && is_copied(alloc, &finish(alloc, id)?)?
            && is_copied(alloc, &lost(alloc, id)?)?,
    )
}

fn short_records_are_copied(alloc: Global, id: BatchId) -> Result<bool, NoMemory> {
    Ok(
        is_copied(alloc, &BatchRecord::Abort(id, 1))?
            && is_copied(alloc, &BatchRecord::Discard(id))?
            && is_copied(alloc, &BatchRecord::Retry(id, 2))?
            && is_copied(alloc, &BatchRecord::Next(id))?,
    )
}

#[test]
fn copies_of_batches(rt: HostRuntime) -> Result<(), Fail> {
    let id = read_id(b"ada.7").ok_or("an ID")?;
    assert!(rt; rows_are_copied(rt.alloc(), id)?);
    assert!(rt; full_records_are_copied(rt.alloc(), id)?);
    assert!(rt; short_records_are_copied(rt.alloc(), id)?);
    Ok(())
}
