//! Solves of models that are given as text.
ghost use Rattle.std.specs.Prelude.{◌≡◌, IfOk};
ghost use Rattle.solve_defs.specs.Plain.{going, start};

use branch_tree::Solving;
use lp_parse::parse;
use model_data::{Cert, Outcome, Params};
use solve_defs::Events;
use std::alloc::Global;
use std::process::Abort;
use std::test::Fail;

/// More turns than any solve here makes.
const MANY_TURNS: u32 = 1_000_000;

/// Before the first turn.
fn begun(rt: &impl Abort, alloc: Global, text: &str, params: Params) -> Result<Solving, Fail>
    ensures { IfOk result (λ solving. solving.progress ≡ going start) }
{
    assert!(rt; text.len() < 1_000);
    let model = parse(alloc, text.as_bytes()).ok().ok_or("no model")?;
    Ok(Solving::start(alloc, model, params)?)
}

/// Turn by turn to the end.
pub(crate) fn solved(
    rt: &impl Abort,
    alloc: Global,
    text: &str,
    params: Params,
) -> Result<(Outcome, Cert), Fail> {
    let mut solving = begun(rt, alloc, text, params)?;
    for _turn in 0..MANY_TURNS {
        if solving.advance(alloc)?.ended {
            return Ok(solving.into_done().ok().ok_or("no end")?.parts());
        }
    }
    Err("no end")?
}

/// What each turn tells, to the end.
pub(crate) fn told(
    rt: &impl Abort,
    alloc: Global,
    text: &str,
    params: Params,
) -> Result<Vec<Events>, Fail> {
    let mut solving = begun(rt, alloc, text, params)?;
    let mut all = Vec::new(alloc);
    for _turn in 0..MANY_TURNS {
        let turn = solving.advance(alloc)?;
        all.push(turn.events)?;
        if turn.ended {
            return Ok(all);
        }
    }
    Err("no end")?
}

/// Cut after so many turns, none of which ends the solve.
pub(crate) fn cut(
    rt: &impl Abort,
    alloc: Global,
    text: &str,
    turns: u32,
) -> Result<(Outcome, Cert), Fail> {
    let mut solving = begun(rt, alloc, text, Params::usual())?;
    for _turn in 0..turns {
        if solving.advance(alloc)?.ended {
            return Err("it ended")?;
        }
    }
    Ok(solving.cut())
}
