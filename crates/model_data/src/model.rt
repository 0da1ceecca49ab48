//! A linear model: variables, rows and an objective.
use base_names::{Name, NoMemory, Seq, Tag, TryCopy};
use frac128::Frac;
use std::alloc::Global;

/// Which value of the objective is the best one.
#[derive(Clone, Copy, Debug, PartialEq, Eq)]
pub enum Direction {
    Minimize,
    Maximize,
}

/// How the left side of a row compares with its right side.
#[derive(Clone, Copy, Debug, PartialEq, Eq)]
pub enum Sense {
    /// At most.
    Less,
    /// At least.
    Greater,
    Equal,
}

/// Which values a variable may have.
#[derive(Clone, Copy, Debug, PartialEq, Eq)]
pub enum VarKind {
    Continuous,
    /// Whole numbers.
    Integer,
    /// Whole numbers from 0 to 1, and within the variable's own bounds.
    Binary,
}

/// A variable. A bound of `None` is infinite.
#[derive(Debug, Drop, PartialEq, Eq)]
pub struct Var {
    pub name: Name,
    pub lower: Option<Frac>,
    pub upper: Option<Frac>,
    /// The coefficient in the objective.
    pub obj: Frac,
    pub kind: VarKind,
    /// By what a solution's text names the variable.
    pub tag: Option<Tag>,
}

/// A variable by its place, with its coefficient.
#[derive(Clone, Copy, Debug, PartialEq, Eq)]
pub struct Term {
    pub var: u32,
    pub coef: Frac,
}

/// A condition on the variables. In a lawful model the terms rise by variable, and no coefficient is 0.
#[derive(Debug, Drop, PartialEq, Eq)]
pub struct Row {
    pub name: Name,
    pub sense: Sense,
    pub rhs: Frac,
    pub terms: Seq<Term>,
}

/// A model. What a lawful one is stands in `specs/Lawful.antt`.
#[derive(Debug, Drop, PartialEq, Eq)]
pub struct Model {
    pub direction: Direction,
    /// What the objective has beside its terms.
    pub constant: Frac,
    pub vars: Seq<Var>,
    pub rows: Seq<Row>,
}

impl Var {
    ghost use Rattle.std.specs.Prelude.{◌≡◌, IfOk};

    /// An equal variable.
    pub fn copy(&self, alloc: Global) -> Result<Var, NoMemory>
        ensures { IfOk result (λ copy. copy ≡ self.now) }
    {
        let tag = match &self.tag {
            Some(tag) => Some(tag.copy(alloc)?),
            None => None,
        };
        Ok(Var {
            name: self.name.copy(alloc)?,
            lower: self.lower,
            upper: self.upper,
            obj: self.obj,
            kind: self.kind,
            tag,
        })
    }
}

impl TryCopy for Var {
    fn try_copy(&self, alloc: Global) -> Result<Var, NoMemory> {
        self.copy(alloc)
    }
}

impl Row {
    ghost use Rattle.std.specs.Prelude.{◌≡◌, IfOk};

    /// An equal row.
    pub fn copy(&self, alloc: Global) -> Result<Row, NoMemory>
        ensures { IfOk result (λ copy. copy ≡ self.now) }
    {
        Ok(Row {
            name: self.name.copy(alloc)?,
            sense: self.sense,
            rhs: self.rhs,
            terms: self.terms.copy(alloc)?,
        })
    }
}

impl TryCopy for Row {
    fn try_copy(&self, alloc: Global) -> Result<Row, NoMemory> {
        self.copy(alloc)
    }
}

impl Model {
    ghost use Rattle.std.specs.Prelude.{◌≡◌, IfOk, []};
    ghost use Rattle.frac128.specs.Fraction.{zero_value};
    ghost use Rattle.model_data.specs.Lawful.{IsLawful};

    /// To be minimized, with nothing in it. It takes no memory.
    pub fn empty(alloc: Global) -> Model
        ensures value { result ≡ record { direction = Direction.Minimize; constant = zero_value; vars = []; rows = [] } }
        ensures lawful { IsLawful result }
    {
        Model {
            direction: Direction::Minimize,
            constant: Frac::zero(),
            vars: Seq::of(Vec::new(alloc)),
            rows: Seq::of(Vec::new(alloc)),
        }
    }

    /// An equal model.
    pub fn copy(&self, alloc: Global) -> Result<Model, NoMemory>
        ensures { IfOk result (λ copy. copy ≡ self.now) }
    {
        Ok(Model {
            direction: self.direction,
            constant: self.constant,
            vars: self.vars.copy(alloc)?,
            rows: self.rows.copy(alloc)?,
        })
    }
}

impl TryCopy for Model {
    fn try_copy(&self, alloc: Global) -> Result<Model, NoMemory> {
        self.copy(alloc)
    }
}
