//! Texts at the limits of a model, and one past each.
use crate::parsed::{is_fault, read};
use base_names::NoMemory;
use lp_parse::FaultWord;
use std::alloc::Global;

/// A text of 1,000 variables and as many rows, each on a line from the second on, before the rest.
fn full_text(alloc: Global, rest: &str) -> Result<String, NoMemory> {
    let mut text = format!(in alloc; "min st\n")?;
    for index in 0..1_000 {
        text.push_str(&format!(in alloc; "v{index} = 0\n")?)?;
    }
    text.push_str(rest)?;
    Ok(text)
}

/// Lines past the limits, with the line of the fault.
const FULL: &[(&str, u32, FaultWord)] = &[
    ("v0 = 0", 1_002, FaultWord::Size),
    ("v0 : = 0", 1_002, FaultWord::Size),
    ("R7: = 0", 1_002, FaultWord::DoubledName),
    ("bounds\nv0 free\nx free", 1_004, FaultWord::Size),
    ("general\nv0\nx", 1_004, FaultWord::Size),
];

fn is_past(alloc: Global, rest: &str, line: u32, fault: FaultWord) -> Result<bool, NoMemory> {
    let text = full_text(alloc, rest)?;
    Ok(is_fault(alloc, text.as_str(), line, 1, fault))
}

/// How many variables and rows the text has.
fn counts(alloc: Global, text: &str) -> Option<(usize, usize)> {
    match &read(alloc, text) {
        Ok(model) => Some((model.vars.len(), model.rows.len())),
        Err(_) => None,
    }
}

fn is_full(alloc: Global) -> Result<bool, NoMemory> {
    let text = full_text(alloc, "end")?;
    Ok(counts(alloc, text.as_str()) == Some((1_000, 1_000)))
}

#[test]
fn full_models(rt: HostRuntime) {
    for (rest, line, fault) in FULL {
        assert!(rt;
            is_past(rt.alloc(), rest, *line, *fault) == Ok(true),
            "{rest}"
        );
    }
    assert!(rt; is_full(rt.alloc()) == Ok(true));
}

/// A text of 250 rows with 1,000 terms each, before the rest, which begins on the line behind them.
fn text_full_of_terms(alloc: Global, rest: &str) -> Result<String, NoMemory> {
    let mut text = format!(in alloc; "min st\n")?;
    for _ in 0..250 {
        for index in 0..1_000 {
            text.push_str(&format!(in alloc; "+ v{index} ")?)?;
        }
        text.push_str("= 0\n")?;
    }
    text.push_str(rest)?;
    Ok(text)
}

/// A coefficient of 0 is no term, and a variable that has one in the row already needs no further one.
fn are_all_terms(alloc: Global) -> Result<bool, NoMemory> {
    let text = text_full_of_terms(alloc, "0 v0 = 1 end")?;
    Ok(counts(alloc, text.as_str()) == Some((1_000, 251)))
}

fn is_one_too_many(alloc: Global) -> Result<bool, NoMemory> {
    let text = text_full_of_terms(alloc, "0 v0 - v1 = 1 end")?;
    Ok(is_fault(alloc, text.as_str(), 252, 8, FaultWord::Size))
}

#[test]
fn terms_at_their_limit(rt: HostRuntime) {
    assert!(rt; are_all_terms(rt.alloc()) == Ok(true));
    assert!(rt; is_one_too_many(rt.alloc()) == Ok(true));
}
