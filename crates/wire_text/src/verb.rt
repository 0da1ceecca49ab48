//! The words by which commands are called.

use crate::words::{first_word, is};

/// What a line asks for, without its arguments.
#[derive(Clone, Copy, Debug, PartialEq, Eq)]
pub enum Verb {
    Read,
    Change(ChangeVerb),
    Update,
    Get(Query),
    Write,
    SetParam,
    Batch,
    BStatus,
    Bye,
}

/// A change of the model, without its arguments.
#[derive(Clone, Copy, Debug, PartialEq, Eq)]
pub enum ChangeVerb {
    AddVar,
    AddConstr,
    ChgCoeff,
    SetObj,
    SetRhs,
    SetLb,
    SetUb,
    SetSense,
    SetType,
    SetVTag,
    DelVar,
    DelConstr,
}

/// What is asked of a model or of the parameters.
#[derive(Clone, Copy, Debug, PartialEq, Eq)]
pub enum Query {
    Lb,
    Ub,
    Obj,
    Type,
    Rhs,
    Sense,
    Coeff,
    VTag,
    NumVars,
    NumConstrs,
    Param,
}

impl Verb {
    ghost use Rattle.std.specs.Prelude.{◌≡◌, Option, Some, None, option_map};
    ghost use Rattle.wire_text.specs.Line.{words_of};
    ghost use Rattle.wire_text.specs.Reading.{verb_at, verb_of};

    /// What a line begins with, and what stands behind that. `None`: no command begins so.
    pub(crate) fn at(line: &[u8]) -> Option<(Verb, &[u8])>
        ensures { option_map (λ found. (found.0, words_of found.1.now)) result ≡ verb_at (words_of line.now) }
    {
        let (word, rest) = first_word(line)?;
        if is(word, "GET") {
            let (word, rest) = first_word(rest)?;
            return Some((Verb::Get(Query::of(word)?), rest));
        }
        Some((Verb::of(word)?, rest))
    }

    /// The command that one word calls.
    fn of(word: &[u8]) -> Option<Verb>
        ensures { result ≡ verb_of word.now }
    {
        if is(word, "READ") {
            Some(Verb::Read)
        } else if is(word, "UPDATE") {
            Some(Verb::Update)
        } else if is(word, "WRITE") {
            Some(Verb::Write)
        } else if is(word, "SETPARAM") {
            Some(Verb::SetParam)
        } else if is(word, "BATCH") {
            Some(Verb::Batch)
        } else if is(word, "BSTATUS") {
            Some(Verb::BStatus)
        } else if is(word, "BYE") {
            Some(Verb::Bye)
        } else {
            ChangeVerb::of(word).map(Verb::Change)
        }
    }
}

impl ChangeVerb {
    ghost use Rattle.std.specs.Prelude.{◌≡◌};
    ghost use Rattle.wire_text.specs.Reading.{change_of};

    fn of(word: &[u8]) -> Option<ChangeVerb>
        ensures { result ≡ change_of word.now }
    {
        if is(word, "ADDVAR") {
            Some(ChangeVerb::AddVar)
        } else if is(word, "ADDCONSTR") {
            Some(ChangeVerb::AddConstr)
        } else if is(word, "CHGCOEFF") {
            Some(ChangeVerb::ChgCoeff)
        } else if is(word, "SETOBJ") {
            Some(ChangeVerb::SetObj)
        } else if is(word, "SETRHS") {
            Some(ChangeVerb::SetRhs)
        } else if is(word, "SETLB") {
            Some(ChangeVerb::SetLb)
        } else if is(word, "SETUB") {
            Some(ChangeVerb::SetUb)
        } else if is(word, "SETSENSE") {
            Some(ChangeVerb::SetSense)
        } else if is(word, "SETTYPE") {
            Some(ChangeVerb::SetType)
        } else if is(word, "SETVTAG") {
            Some(ChangeVerb::SetVTag)
        } else if is(word, "DELVAR") {
            Some(ChangeVerb::DelVar)
        } else if is(word, "DELCONSTR") {
            Some(ChangeVerb::DelConstr)
        } else {
            None
        }
    }
}

impl Query {
    ghost use Rattle.std.specs.Prelude.{◌≡◌};
    ghost use Rattle.wire_text.specs.Reading.{query_of};

    fn of(word: &[u8]) -> Option<Query>
        ensures { result ≡ query_of word.now }
    {
        if is(word, "LB") {
            Some(Query::Lb)
        } else if is(word, "UB") {
            Some(Query::Ub)
        } else if is(word, "OBJ") {
            Some(Query::Obj)
        } else if is(word, "TYPE") {
            Some(Query::Type)
        } else if is(word, "RHS") {
            Some(Query::Rhs)
        } else if is(word, "SENSE") {
            Some(Query::Sense)
        } else if is(word, "COEFF") {
            Some(Query::Coeff)
        } else if is(word, "VTAG") {
            Some(Query::VTag)
        } else if is(word, "NUMVARS") {
            Some(Query::NumVars)
        } else if is(word, "NUMCONSTRS") {
            Some(Query::NumConstrs)
        } else if is(word, "PARAM") {
            Some(Query::Param)
        } else {
            None
        }
    }
}
