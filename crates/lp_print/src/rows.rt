//! The lines of rows.
ghost use Rattle.std.specs.Prelude.{◌≡◌, ◌++◌, OnOk};
ghost use Rattle.std.specs.List.{flat_map};
ghost use Rattle.lp_defs.specs.Canonical.{line, name_at, row_line, sense_text, spaced_word, term_text};

use crate::words::{end_line, write_number, write_term, write_word};
use base_names::NoMemory;
use model_data::{Row, Sense, Term, Var};

pub(crate) fn write_rows(out: &mut Vec<u8>, vars: &[Var], rows: &[Row]) -> Result<(), NoMemory>
    ensures { OnOk result (out.new.items ≡ out.old.items ++ flat_map (λ r. line (row_line vars.now r)) rows.now) }
{
    for row in rows {
        write_row(out, vars, row)?;
    }
    Ok(())
}

fn write_row(out: &mut Vec<u8>, vars: &[Var], row: &Row) -> Result<(), NoMemory>
    ensures { OnOk result (out.new.items ≡ out.old.items ++ line (row_line vars.now row.now)) }
{
    write_word(out, row.name.as_bytes())?;
    out.push(b':')?;
    write_terms(out, vars, row.terms.as_slice())?;
    write_word(out, sense_text(row.sense))?;
    write_number(out, &row.rhs)?;
    end_line(out)
}

fn write_terms(out: &mut Vec<u8>, vars: &[Var], terms: &[Term]) -> Result<(), NoMemory>
    ensures { OnOk result (out.new.items ≡ out.old.items ++ flat_map (λ t. spaced_word (term_text t.coef (name_at vars.now t.var))) terms.now) }
{
    for term in terms {
        write_term(out, &term.coef, name_at(vars, term.var))?;
    }
    Ok(())
}

/// The name of the variable at the place. In a lawful model each place has one.
fn name_at(vars: &[Var], place: u32) -> &[u8]
    ensures { result.now ≡ name_at vars.now place }
{
    match vars.get(place as usize) {
        Some(var) => var.name.as_bytes(),
        None => b"",
    }
}

fn sense_text(sense: Sense) -> &'static [u8]
    ensures { result.now ≡ sense_text sense }
{
    match sense {
        Sense::Less => b"<=",
        Sense::Greater => b">=",
        Sense::Equal => b"=",
    }
}
