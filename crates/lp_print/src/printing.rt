//! The whole text of a model.
ghost use Rattle.std.specs.Prelude.{◌≡◌, IfOk};
ghost use Rattle.model_data.specs.Lawful.{IsLawful};
ghost use Rattle.model_data.specs.declared.model.Model.{Model};
ghost use Rattle.lp_defs.specs.Canonical.{canonical_text, direction_text, untagged};
ghost use Rattle.lp_defs.specs.Text.{Spells};

use crate::bounds::write_bounds;
use crate::kinds::write_kind;
use crate::objective::write_objective;
use crate::rows::write_rows;
use crate::words::write_line;
use base_names::{NoMemory, Text};
use model_data::{Direction, Model, VarKind, kept_numbers};
use std::alloc::Global;

/// The canonical text of a lawful model. It is read as the model without its tags, and as no other.
#[tactic(auto, using(lp_defs::proofs::Laws::told))]
pub fn print(alloc: Global, m: &Model) -> Result<Text, NoMemory>
    requires { IsLawful m.now }
    ensures text { IfOk result (λ text. text ≡ canonical_text m.now) }
    ensures spells { IfOk result (λ text. Spells text (untagged m.now)) }
    ensures no_other { IfOk result (λ text. (n : Model) → Spells text n → n ≡ untagged m.now) }
{
    kept_numbers(m);
    write(alloc, m)
}

/// The canonical text of any model. A term whose variable isn't there has an empty name.
pub(crate) fn write(alloc: Global, m: &Model) -> Result<Text, NoMemory>
    ensures { IfOk result (λ text. text ≡ canonical_text m.now) }
{
    let vars = m.vars.as_slice();
    let mut out = Vec::new(alloc);
    write_line(&mut out, direction_text(m.direction))?;
    write_objective(&mut out, m)?;
    write_line(&mut out, b"Subject To")?;
    write_rows(&mut out, vars, m.rows.as_slice())?;
    write_bounds(&mut out, vars)?;
    write_kind(&mut out, b"Generals", VarKind::Integer, vars)?;
    write_kind(&mut out, b"Binaries", VarKind::Binary, vars)?;
    write_line(&mut out, b"End")?;
    Ok(Text::of(out))
}

fn direction_text(direction: Direction) -> &'static [u8]
    ensures { result.now ≡ direction_text direction }
{
    match direction {
        Direction::Minimize => b"Minimize",
        Direction::Maximize => b"Maximize",
    }
}
