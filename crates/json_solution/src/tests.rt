//! Worked texts, and what is listed of a model's variables.

ghost use Rattle.std.specs.Prelude.{IfOk, IfSome};
ghost use Rattle.model_data.specs.Names.{IsTag};
ghost use Rattle.json_solution.specs.Solution.{HasTags};

use crate::json;
use base_names::{Name, Seq, Tag, Text};
use frac128::Frac;
use model_data::{Direction, Model, Outcome, Point, Var, VarKind, is_tag};
use std::alloc::Global;
use std::str;
use std::test::Fail;

fn tag(alloc: Global, text: &str) -> Result<Tag, Fail>
    ensures { IfOk result IsTag }
{
    let text = text.as_bytes();
    if !is_tag(text) {
        return Err("no tag".into());
    }
    Ok(Tag::of(Vec::from_slice(alloc, text)?))
}

/// A variable with the tag, or with none where the text is empty.
fn var(alloc: Global, text: &str) -> Result<Var, Fail>
    ensures { IfOk result (λ v. IfSome v.tag IsTag) }
{
    let tag = if text.is_empty() {
        None
    } else {
        Some(tag(alloc, text)?)
    };
    Ok(Var {
        name: Name::of(Vec::from_slice(alloc, b"x".as_slice())?),
        lower: None,
        upper: None,
        obj: Frac::zero(),
        kind: VarKind::Continuous,
        tag,
    })
}

fn model(alloc: Global, first: &str, second: &str) -> Result<Model, Fail>
    ensures { IfOk result HasTags }
{
    let mut vars = Vec::new(alloc);
    vars.push(var(alloc, first)?)?;
    vars.push(var(alloc, second)?)?;
    Ok(Model {
        direction: Direction::Maximize,
        constant: Frac::zero(),
        vars: Seq::of(vars),
        rows: Seq::of(Vec::new(alloc)),
    })
}

fn fifths(num: i128) -> Result<Frac, Fail> {
    Ok(Frac::make(num, 5).ok_or("no fraction")?)
}

/// A point at these fifths, of a value in fifths too.
fn point(alloc: Global, xs: &[i128], value: i128) -> Result<Point, Fail> {
    let mut found = Vec::new(alloc);
    for x in xs {
        found.push(fifths(*x)?)?;
    }
    Ok(Point {
        xs: Seq::of(found),
        value: fifths(value)?,
    })
}

fn outcome(status: u8, point: Option<Point>) -> Outcome {
    Outcome {
        status,
        pivots: 2,
        nodes: 1,
        work: 18,
        point,
        wide: None,
    }
}

fn best(alloc: Global, xs: &[i128], value: i128) -> Result<Outcome, Fail> {
    Ok(outcome(2, Some(point(alloc, xs, value)?)))
}

/// The text as it is printed.
fn shown(text: &Text) -> &str {
    str::from_utf8(text.as_bytes()).unwrap_or("")
}

/// The text of two variables with these tags at the point.
fn text(alloc: Global, tags: (&str, &str), found: &Outcome, detail: u8) -> Result<Text, Fail> {
    let model = model(alloc, tags.0, tags.1)?;
    Ok(json(alloc, &model, found, detail)?)
}

#[test]
fn a_plan_of_two_variables(rt: HostRuntime) -> Result<(), Fail> {
    let found = best(rt.alloc(), &[6, 8], 14)?;
    let text = text(rt.alloc(), ("x", "y"), &found, 0)?;
    assert_eq!(rt;
        shown(&text),
        "{\"SolutionInfo\":{\"IterCount\":2,\"NodeCount\":1,\"ObjVal\":\"14/5\",\"SolCount\":1,\"Status\":2,\"Work\":18},\"Vars\":[{\"VTag\":[\"x\"],\"X\":\"6/5\"},{\"VTag\":[\"y\"],\"X\":\"8/5\"}]}"
    );
    Ok(())
}

#[test]
fn a_zero_is_listed_in_detail(rt: HostRuntime) -> Result<(), Fail> {
    let found = best(rt.alloc(), &[0, 5], 0)?;
    let few = text(rt.alloc(), ("a\"", "\\b"), &found, 0)?;
    assert_eq!(rt;
        shown(&few),
        "{\"SolutionInfo\":{\"IterCount\":2,\"NodeCount\":1,\"ObjVal\":\"0\",\"SolCount\":1,\"Status\":2,\"Work\":18},\"Vars\":[{\"VTag\":[\"\\\\b\"],\"X\":\"1\"}]}"
    );
    let all = text(rt.alloc(), ("a\"", "\\b"), &found, 1)?;
    assert_eq!(rt;
        shown(&all),
        "{\"SolutionInfo\":{\"IterCount\":2,\"NodeCount\":1,\"ObjVal\":\"0\",\"SolCount\":1,\"Status\":2,\"Work\":18},\"Vars\":[{\"VTag\":[\"a\\\"\"],\"X\":\"0\"},{\"VTag\":[\"\\\\b\"],\"X\":\"1\"}]}"
    );
    Ok(())
}

#[test]
fn a_variable_without_a_tag_isnt_listed(rt: HostRuntime) -> Result<(), Fail> {
    let found = best(rt.alloc(), &[-5, 5], -1)?;
    let text = text(rt.alloc(), ("", "y/z"), &found, 1)?;
    assert_eq!(rt;
        shown(&text),
        "{\"SolutionInfo\":{\"IterCount\":2,\"NodeCount\":1,\"ObjVal\":\"-1/5\",\"SolCount\":1,\"Status\":2,\"Work\":18},\"Vars\":[{\"VTag\":[\"y/z\"],\"X\":\"1\"}]}"
    );
    Ok(())
}

#[test]
fn without_a_point_nothing_is_listed(rt: HostRuntime) -> Result<(), Fail> {
    let text = text(rt.alloc(), ("x", "y"), &outcome(3, None), 1)?;
    assert_eq!(rt;
        shown(&text),
        "{\"SolutionInfo\":{\"IterCount\":2,\"NodeCount\":1,\"SolCount\":0,\"Status\":3,\"Work\":18},\"Vars\":[]}"
    );
    Ok(())
}

#[test]
fn a_short_point_lists_what_it_has(rt: HostRuntime) -> Result<(), Fail> {
    let found = best(rt.alloc(), &[5], 5)?;
    let text = text(rt.alloc(), ("x", "y"), &found, 1)?;
    assert_eq!(rt;
        shown(&text),
        "{\"SolutionInfo\":{\"IterCount\":2,\"NodeCount\":1,\"ObjVal\":\"1\",\"SolCount\":1,\"Status\":2,\"Work\":18},\"Vars\":[{\"VTag\":[\"x\"],\"X\":\"1\"}]}"
    );
    Ok(())
}
