//! One change of a model.
use base_names::{Name, NoMemory, Seq, Tag, TryCopy};
use frac128::Frac;
use model_data::{Sense, Var, VarKind};
use std::alloc::Global;

/// A variable by its name, with its coefficient.
#[derive(Debug, Drop, PartialEq, Eq)]
pub struct NamedTerm {
    pub name: Name,
    pub coef: Frac,
}

/// One change of a model. What it does is said in `specs/Effect.antt`, and when it is refused in `specs/One.antt`.
#[derive(Debug, Drop, PartialEq, Eq)]
pub enum Change {
    /// A further variable, behind the others.
    AddVar(Var),
    /// A further row, behind the others, with its terms in any order.
    AddConstr(Name, Sense, Frac, Seq<NamedTerm>),
    /// The coefficient of a variable in a row, which stands first; 0 takes the term away.
    ChgCoeff(Name, Name, Frac),
    /// The lower bound of a variable; `None` is infinite.
    SetLb(Name, Option<Frac>),
    /// The upper bound of a variable; `None` is infinite.
    SetUb(Name, Option<Frac>),
    /// The coefficient of a variable in the objective.
    SetObj(Name, Frac),
    /// The right side of a row.
    SetRhs(Name, Frac),
    /// The comparison of a row.
    SetSense(Name, Sense),
    /// The kind of a variable.
    SetKind(Name, VarKind),
    /// The tag of a variable, in place of one that it has.
    SetTag(Name, Tag),
    /// A variable goes, with its terms.
    DelVar(Name),
    /// A row goes.
    DelConstr(Name),
}

impl NamedTerm {
    ghost use Rattle.std.specs.Prelude.{◌≡◌, IfOk};

    /// An equal term.
    pub fn copy(&self, alloc: Global) -> Result<NamedTerm, NoMemory>
        ensures { IfOk result (λ copy. copy ≡ self.now) }
    {
        Ok(NamedTerm {
            name: self.name.copy(alloc)?,
            coef: self.coef,
        })
    }
}

impl TryCopy for NamedTerm {
    fn try_copy(&self, alloc: Global) -> Result<NamedTerm, NoMemory> {
        self.copy(alloc)
    }
}

impl Change {
    ghost use Rattle.std.specs.Prelude.{◌≡◌, IfOk};

    /// An equal change.
    pub fn copy(&self, alloc: Global) -> Result<Change, NoMemory>
        ensures { IfOk result (λ copy. copy ≡ self.now) }
    {
        match self {
            Change::AddVar(var) => Ok(Change::AddVar(var.copy(alloc)?)),
            Change::AddConstr(name, sense, rhs, terms) => Ok(Change::AddConstr(
                name.copy(alloc)?,
                *sense,
                *rhs,
                terms.copy(alloc)?,
            )),
            Change::ChgCoeff(row, var, coef) => Ok(Change::ChgCoeff(
                row.copy(alloc)?,
                var.copy(alloc)?,
                *coef,
            )),
            Change::SetLb(name, bound) => Ok(Change::SetLb(name.copy(alloc)?, *bound)),
            Change::SetUb(name, bound) => Ok(Change::SetUb(name.copy(alloc)?, *bound)),
            Change::SetObj(name, coef) => Ok(Change::SetObj(name.copy(alloc)?, *coef)),
            Change::SetRhs(name, rhs) => Ok(Change::SetRhs(name.copy(alloc)?, *rhs)),
            Change::SetSense(name, sense) => Ok(Change::SetSense(name.copy(alloc)?, *sense)),
            Change::SetKind(name, kind) => Ok(Change::SetKind(name.copy(alloc)?, *kind)),
            Change::SetTag(name, tag) => Ok(Change::SetTag(name.copy(alloc)?, tag.copy(alloc)?)),
            Change::DelVar(name) => Ok(Change::DelVar(name.copy(alloc)?)),
            Change::DelConstr(name) => Ok(Change::DelConstr(name.copy(alloc)?)),
        }
    }
}

impl TryCopy for Change {
    fn try_copy(&self, alloc: Global) -> Result<Change, NoMemory> {
        self.copy(alloc)
    }
}
