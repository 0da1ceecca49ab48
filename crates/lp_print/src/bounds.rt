//! The section of bounds.
ghost use Rattle.std.specs.Prelude.{◌≡◌, ◌++◌, OnOk, codes, Some, None};
ghost use Rattle.std.specs.List.{flat_map, list_any};
ghost use Rattle.frac_text.specs.Writing.{canonical_text as number_text};
ghost use Rattle.lp_defs.specs.Canonical.{bounds_lines, bounds_of, line, lines, section, spaced_word};
ghost use Rattle.lp_print.specs.Listed.{is_listed};

use crate::words::{end_line, write_line, write_number, write_word};
use base_names::{Name, NoMemory};
use frac128::Frac;
use model_data::Var;

pub(crate) fn write_bounds(out: &mut Vec<u8>, vars: &[Var]) -> Result<(), NoMemory>
    ensures { OnOk result (out.new.items ≡ out.old.items ++ lines (section (codes "Bounds") (flat_map bounds_of vars.now))) }
{
    if has_lines(vars) {
        write_line(out, b"Bounds")?;
        write_entries(out, vars)?;
    }
    Ok(())
}

/// Whether the bounds of a variable are written.
fn has_lines(vars: &[Var]) -> bool
    ensures { result ≡ list_any (λ v. is_listed (bounds_of v)) vars.now }
{
    vars.iter().any(|var| has_line(var))
}

fn write_entries(out: &mut Vec<u8>, vars: &[Var]) -> Result<(), NoMemory>
    ensures { OnOk result (out.new.items ≡ out.old.items ++ flat_map (λ v. lines (bounds_of v)) vars.now) }
{
    for var in vars {
        write_entry(out, var)?;
    }
    Ok(())
}

/// Whether the variable's bounds are written: they are, but for 0 to infinity.
fn has_line(var: &Var) -> bool
    ensures { result ≡ is_listed (bounds_of var.now) }
{
    match (var.lower, var.upper) {
        (Some(lower), None) => !lower.is_zero(),
        _ => true,
    }
}

fn write_entry(out: &mut Vec<u8>, var: &Var) -> Result<(), NoMemory>
    ensures { OnOk result (out.new.items ≡ out.old.items ++ lines (bounds_of var.now)) }
{
    match (&var.lower, &var.upper) {
        (None, None) => write_free(out, &var.name),
        (None, Some(upper)) => write_upper(out, &var.name, upper),
        (Some(lower), None) if lower.is_zero() => Ok(()),
        (Some(lower), None) => write_relation(out, &var.name, b">=", lower),
        (Some(lower), Some(upper)) if lower == upper => {
            write_relation(out, &var.name, b"=", lower)
        }
        (Some(lower), Some(upper)) => write_range(out, lower, &var.name, upper),
    }
}

fn write_free(out: &mut Vec<u8>, name: &Name) -> Result<(), NoMemory>
    ensures { OnOk result (out.new.items ≡ out.old.items ++ lines (bounds_lines name.now None None)) }
{
    write_word(out, name.as_bytes())?;
    write_line(out, b" free")
}

fn write_upper(out: &mut Vec<u8>, name: &Name, upper: &Frac) -> Result<(), NoMemory>
    ensures { OnOk result (out.new.items ≡ out.old.items ++ lines (bounds_lines name.now None (Some upper.now))) }
{
    out.extend_from_slice(b" -infinity <=")?;
    write_relation(out, name, b"<=", upper)
}

fn write_range(out: &mut Vec<u8>, lower: &Frac, name: &Name, upper: &Frac) -> Result<(), NoMemory>
    ensures { OnOk result (out.new.items ≡ out.old.items ++ line (codes " " ++ number_text lower.now ++ codes " <= " ++ name.now ++ codes " <= " ++ number_text upper.now)) }
{
    write_number(out, lower)?;
    out.extend_from_slice(b" <=")?;
    write_relation(out, name, b"<=", upper)
}

/// Adds the name, the comparison and the bound, with a space before each, and the end of the line.
fn write_relation(
    out: &mut Vec<u8>,
    name: &Name,
    comparison: &[u8],
    bound: &Frac,
) -> Result<(), NoMemory>
    ensures { OnOk result (out.new.items ≡ out.old.items ++ line (codes " " ++ name.now ++ (spaced_word comparison.now ++ codes " ") ++ number_text bound.now)) }
{
    write_word(out, name.as_bytes())?;
    write_word(out, comparison)?;
    write_number(out, bound)?;
    end_line(out)
}
