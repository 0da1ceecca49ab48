//! The two lines.

ghost use Rattle.std.specs.Prelude.{◌≡◌, ℕ, IfOk, decimal};
ghost use Rattle.limit_defs.specs.Text.{limit_text, limits_text, lines_of};
ghost use Rattle.enough_limits.specs.Bounds.{limited};
ghost use Rattle.model_data.specs.Lawful.{IsLawful};
ghost use Rattle.model_data.specs.declared.limits.TheConstants.{MAX_ITERATIONS};

use base_names::{NoMemory, Text, append};
use enough_limits::{Nodes, iteration_bound, node_bound};
use model_data::Model;
use std::alloc::Global;

/// The text of a model's limits.
#[tactic(auto, using(crate::proofs::Texts::open_text, crate::proofs::Texts::over_text, crate::proofs::Texts::bound_text))]
pub(crate) fn text_of(alloc: Global, m: &Model) -> Result<Text, NoMemory>
    requires { IsLawful m.now }
    ensures { IfOk result (λ text. text ≡ limits_text m.now) }
{
    match node_bound(m) {
        Nodes::Open => fixed_text(alloc, b"ITERATIONS OPEN\nNODES OPEN\n"),
        Nodes::Over => fixed_text(alloc, b"ITERATIONS OVER\nNODES OVER\n"),
        Nodes::Bound(nodes) => bounded_text(alloc, iteration_bound(m, nodes), nodes),
    }
}

fn fixed_text(alloc: Global, text: &[u8]) -> Result<Text, NoMemory>
    ensures { IfOk result (λ told. told ≡ text.now) }
{
    Ok(Text::of(Vec::from_slice(alloc, text)?))
}

/// The lines for a limit on nodes, and one on pivots where there is one.
#[tactic(auto, using(crate::proofs::Texts::limit_told, crate::proofs::Texts::none_told))]
fn bounded_text(alloc: Global, iterations: Option<u64>, nodes: u64) -> Result<Text, NoMemory>
    ensures { (n : ℕ) → iterations ≡ limited MAX_ITERATIONS n → IfOk result (λ text. text ≡ lines_of (limit_text MAX_ITERATIONS n) (decimal nodes)) }
{
    let mut out = Vec::new(alloc);
    match iterations {
        Some(iterations) => append(
            &mut out,
            format_args!("ITERATIONS {iterations}\nNODES {nodes}\n"),
        )?,
        None => append(&mut out, format_args!("ITERATIONS OVER\nNODES {nodes}\n"))?,
    }
    Ok(Text::of(out))
}
