//! Texts of models as they are written, byte for byte, each of a model that another text spells.
use base_names::OrMemory;
use lp_parse::{ModelFault, parse};
use lp_print::print;
use std::alloc::Global;

/// The text that is written for the model that the source spells.
fn is_written(alloc: Global, source: &str, text: &str) -> Result<bool, OrMemory<ModelFault>> {
    if source.len() >= 10_000 {
        return Ok(false);
    }
    let model = parse(alloc, source.as_bytes())?;
    Ok(print(alloc, &model)?.as_bytes() == text.as_bytes())
}

/// Sources, with the texts that are written for their models.
const TEXTS: &[(&str, &str)] = &[
    // There is nothing to say.
    ("min st end", "Minimize\n \nSubject To\nEnd\n"),
    ("max st end", "Maximize\n \nSubject To\nEnd\n"),
    // Several sections.
    (
        "max x + 2 y + 3 Constant st c0: x + y <= 4 bounds y <= 5 -inf <= y Constant = 1 gen x end",
        "Maximize\n + 1 x + 2 y + 3 Constant\nSubject To\n c0: + 1 x + 1 y <= 4\nBounds\n -infinity <= y <= 5\n Constant = 1\nGenerals\n x\nEnd\n",
    ),
    // Numbers and rows.
    (
        "min 0 a - 3/6 b + 7/3 c - 2 d -2.5 st none: = -1 up: -2.5 d >= -9/4 1/3 a - c - 0 d < 0 gen b d bin a c end",
        "Minimize\n + 0 a - 1/2 b + 7/3 c - 2 d - 5/2\nSubject To\n none: = -1\n up: - 5/2 d >= -9/4\n R2: + 1/3 a - 1 c <= 0\nGenerals\n b\n d\nBinaries\n a\n c\nEnd\n",
    ),
    // Constants.
    ("min x st end", "Minimize\n + 1 x\nSubject To\nEnd\n"),
    (
        "min x + 4 st end",
        "Minimize\n + 1 x + 4\nSubject To\nEnd\n",
    ),
    (
        "min x - 1/3 st end",
        "Minimize\n + 1 x - 1/3\nSubject To\nEnd\n",
    ),
    ("min -7 st end", "Minimize\n - 7\nSubject To\nEnd\n"),
    // All bounds stand in one section.
    (
        "min 0 x + 0 y + 0 z st bounds z <= 1 x free binary z x end",
        "Minimize\n + 0 x + 0 y + 0 z\nSubject To\nBounds\n x free\n 0 <= z <= 1\nBinaries\n x\n z\nEnd\n",
    ),
];

#[test]
fn texts(rt: HostRuntime) {
    for (source, text) in TEXTS {
        assert!(rt;
            is_written(rt.alloc(), source, text) == Ok(true),
            "{source}"
        );
    }
}

/// Bounds of x, and the lines that are written for them.
const BOUNDS: &[(&str, &str)] = &[
    ("", ""),
    ("x free", "Bounds\n x free\n"),
    ("x = 0", "Bounds\n x = 0\n"),
    ("-1/2 <= x <= -2/4", "Bounds\n x = -1/2\n"),
    ("-inf <= x <= 0", "Bounds\n -infinity <= x <= 0\n"),
    ("-inf <= x <= -3", "Bounds\n -infinity <= x <= -3\n"),
    ("x >= 2/3", "Bounds\n x >= 2/3\n"),
    ("x >= -2", "Bounds\n x >= -2\n"),
    ("x <= 1", "Bounds\n 0 <= x <= 1\n"),
    ("x <= -1", "Bounds\n 0 <= x <= -1\n"),
    ("-5 <= x <= 9/2", "Bounds\n -5 <= x <= 9/2\n"),
];

fn is_bound(alloc: Global, bound: &str, lines: &str) -> Result<bool, OrMemory<ModelFault>> {
    let source = format!(in alloc; "min x st bounds {bound} end")?;
    let text = format!(in alloc; "Minimize\n + 1 x\nSubject To\n{lines}End\n")?;
    is_written(alloc, source.as_str(), text.as_str())
}

#[test]
fn bounds(rt: HostRuntime) {
    for (bound, lines) in BOUNDS {
        assert!(rt; is_bound(rt.alloc(), bound, lines) == Ok(true), "{bound}");
    }
}
