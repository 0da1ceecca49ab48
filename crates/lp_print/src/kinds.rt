//! The sections that name the variables of a kind.
ghost use Rattle.std.specs.Prelude.{◌≡◌, ◌++◌, OnOk};
ghost use Rattle.std.specs.List.{flat_map, list_any};
ghost use Rattle.lp_defs.specs.Canonical.{is_same_kind, kind_lines, lines, section};
ghost use Rattle.lp_print.specs.Listed.{is_listed};

use crate::words::{end_line, write_line, write_word};
use base_names::NoMemory;
use model_data::{Var, VarKind};

pub(crate) fn write_kind(
    out: &mut Vec<u8>,
    heading: &[u8],
    kind: VarKind,
    vars: &[Var],
) -> Result<(), NoMemory>
    ensures { OnOk result (out.new.items ≡ out.old.items ++ lines (section heading.now (flat_map (kind_lines kind) vars.now))) }
{
    if has_names(kind, vars) {
        write_line(out, heading)?;
        write_names(out, kind, vars)?;
    }
    Ok(())
}

/// Whether a variable is of the kind.
fn has_names(kind: VarKind, vars: &[Var]) -> bool
    ensures { result ≡ list_any (λ v. is_listed (kind_lines kind v)) vars.now }
{
    vars.iter().any(|var| is_of_kind(var, kind))
}

fn write_names(out: &mut Vec<u8>, kind: VarKind, vars: &[Var]) -> Result<(), NoMemory>
    ensures { OnOk result (out.new.items ≡ out.old.items ++ flat_map (λ v. lines (kind_lines kind v)) vars.now) }
{
    for var in vars {
        if is_of_kind(var, kind) {
            write_word(out, var.name.as_bytes())?;
            end_line(out)?;
        }
    }
    Ok(())
}

fn is_of_kind(var: &Var, kind: VarKind) -> bool
    ensures same { result ≡ is_same_kind var.now.kind kind }
    ensures listed { result ≡ is_listed (kind_lines kind var.now) }
{
    var.kind == kind
}
