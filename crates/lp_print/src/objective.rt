//! The objective's line.
ghost use Rattle.std.specs.Prelude.{◌≡◌, ◌++◌, ◌∷◌, OnOk};
ghost use Rattle.std.specs.List.{flat_map};
ghost use Rattle.lp_defs.specs.Canonical.{constant_terms, joined, line, objective_line, objective_terms, space, spaced, spaced_word, term_text};
ghost use Rattle.lp_print.specs.Listed.{is_listed};

use crate::words::{end_line, write_signed, write_term};
use base_names::NoMemory;
use frac128::Frac;
use model_data::{Model, Var};

pub(crate) fn write_objective(out: &mut Vec<u8>, m: &Model) -> Result<(), NoMemory>
    ensures { OnOk result (out.new.items ≡ out.old.items ++ line (objective_line m.now)) }
{
    write_terms(out, m)?;
    end_line(out)
}

/// Adds a space and the terms joined by spaces, which is a space alone where there is no term.
fn write_terms(out: &mut Vec<u8>, m: &Model) -> Result<(), NoMemory>
    ensures { OnOk result (out.new.items ≡ out.old.items ++ space ∷ joined (objective_terms m.now)) }
{
    if has_terms(m) {
        write_coefficients(out, m.vars.as_slice())?;
        write_constant(out, &m.constant)
    } else {
        out.push(b' ')?;
        Ok(())
    }
}

fn has_terms(m: &Model) -> bool
    ensures { result ≡ is_listed (objective_terms m.now) }
{
    !m.vars.is_empty() || !m.constant.is_zero()
}

fn write_coefficients(out: &mut Vec<u8>, vars: &[Var]) -> Result<(), NoMemory>
    ensures { OnOk result (out.new.items ≡ out.old.items ++ flat_map (λ v. spaced_word (term_text v.obj v.name)) vars.now) }
{
    for var in vars {
        write_term(out, &var.obj, var.name.as_bytes())?;
    }
    Ok(())
}

fn write_constant(out: &mut Vec<u8>, constant: &Frac) -> Result<(), NoMemory>
    ensures { OnOk result (out.new.items ≡ out.old.items ++ spaced (constant_terms constant.now)) }
{
    if !constant.is_zero() {
        write_signed(out, constant)?;
    }
    Ok(())
}
