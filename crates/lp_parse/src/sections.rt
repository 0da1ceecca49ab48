//! The sections behind the rows. Each function reads one token, and tells what stage is behind it.
ghost use Rattle.std.specs.Prelude.{◌≡◌};
ghost use Rattle.lp_defs.specs.Sections as defs;
ghost use Rattle.lp_parse.specs.Meaning.{limit_of, quantity_of, spot_of, stage_of, symbol_of};
ghost use Rattle.lp_parse.specs.Outcome.{Meets};

use crate::quantity::{Limit, turned};
use crate::rows::after_rows;
use crate::stage::Stage;
use crate::symbol::{Quantity, Spot, Symbol};
use crate::told::Told;
use base_names::{FaultWord, OrMemory};
use lp_defs::{ModelFault, SectionWord};
use model_data::{Sense, VarKind};
use std::alloc::Global;

/// The number before a bound's name, with the sign in front of it.
fn first_limit<'a>(
    negative: bool,
    told: &mut Told,
    spot: Spot,
    quantity: &Quantity<'_>,
) -> Result<Stage<'a>, OrMemory<ModelFault>>
    ensures { Meets result (λ stage. stage_of stage told.new) (defs.first_limit negative (spot_of spot) (quantity_of quantity.now) told.old.draft.model) }
{
    let limit = quantity.signed_limit(negative, spot, &mut told.number)?;
    Ok(Stage::BoundNumber(spot, limit))
}

/// A bound begins with a name, a number, or a sign and a number. A later bound replaces an earlier one.
pub(crate) fn after_bound<'a>(
    alloc: Global,
    told: &mut Told,
    spot: Spot,
    symbol: &Symbol<'a, '_>,
) -> Result<Stage<'a>, OrMemory<ModelFault>>
    ensures { Meets result (λ stage. stage_of stage told.new) (defs.after_bound (spot_of spot) (symbol_of symbol.now) told.old.draft.model) }
{
    match symbol {
        Symbol::Name(name) => {
            told.draft.mention(alloc, spot, *name)?;
            Ok(Stage::BoundName(*name))
        }
        Symbol::Sign { negative } => Ok(Stage::BoundSign(*negative)),
        Symbol::Number { quantity, .. } => first_limit(false, told, spot, quantity),
        Symbol::Keyword(word) => after_rows(told, spot, *word),
        _ => Err(spot.fault(FaultWord::Word)),
    }
}

/// A name that begins a bound stands before `free` or a comparison.
pub(crate) fn after_bound_name<'a>(
    name: &'a str,
    told: &mut Told,
    spot: Spot,
    symbol: &Symbol<'_, '_>,
) -> Result<Stage<'a>, OrMemory<ModelFault>>
    ensures { Meets result (λ stage. stage_of stage told.new) (defs.after_bound_name name.now (spot_of spot) (symbol_of symbol.now) told.old.draft.model) }
{
    match symbol {
        Symbol::Keyword(SectionWord::Free) => {
            told.draft.free(name);
            Ok(Stage::Bounds)
        }
        Symbol::Comparison(sense) => Ok(Stage::BoundSide(*sense, name)),
        _ => Err(spot.fault(FaultWord::Word)),
    }
}

/// A bound on the side of the comparison, which its infinite number has to fit.
fn last_limit<'a>(
    negative: bool,
    sense: Sense,
    name: &str,
    told: &mut Told,
    spot: Spot,
    quantity: &Quantity<'_>,
) -> Result<Stage<'a>, OrMemory<ModelFault>>
    ensures { Meets result (λ stage. stage_of stage told.new)
        (defs.last_limit negative sense name.now (spot_of spot) (quantity_of quantity.now) told.old.draft.model) }
{
    let limit = quantity.signed_limit(negative, spot, &mut told.number)?;
    if !limit.may_bound(sense) {
        return Err(spot.fault(FaultWord::Number));
    }
    told.draft.bound(name, sense, limit, &told.number);
    Ok(Stage::Bounds)
}

pub(crate) fn after_bound_side_sign<'a>(
    negative: bool,
    sense: Sense,
    name: &str,
    told: &mut Told,
    spot: Spot,
    symbol: &Symbol<'_, '_>,
) -> Result<Stage<'a>, OrMemory<ModelFault>>
    ensures { Meets result (λ stage. stage_of stage told.new)
        (defs.after_bound_side_sign negative sense name.now (spot_of spot) (symbol_of symbol.now) told.old.draft.model) }
{
    match symbol {
        Symbol::Number { quantity, .. } => last_limit(negative, sense, name, told, spot, quantity),
        _ => Err(spot.fault(FaultWord::Word)),
    }
}

/// Behind a name and a comparison: one sign, or the number.
pub(crate) fn after_bound_side<'a>(
    sense: Sense,
    name: &'a str,
    told: &mut Told,
    spot: Spot,
    symbol: &Symbol<'_, '_>,
) -> Result<Stage<'a>, OrMemory<ModelFault>>
    ensures { Meets result (λ stage. stage_of stage told.new) (defs.after_bound_side sense name.now (spot_of spot) (symbol_of symbol.now) told.old.draft.model) }
{
    match symbol {
        Symbol::Sign { negative } => Ok(Stage::BoundSideSign(*negative, sense, name)),
        Symbol::Number { quantity, .. } => last_limit(false, sense, name, told, spot, quantity),
        _ => Err(spot.fault(FaultWord::Word)),
    }
}

pub(crate) fn after_bound_sign<'a>(
    negative: bool,
    told: &mut Told,
    spot: Spot,
    symbol: &Symbol<'_, '_>,
) -> Result<Stage<'a>, OrMemory<ModelFault>>
    ensures { Meets result (λ stage. stage_of stage told.new) (defs.after_bound_sign negative (spot_of spot) (symbol_of symbol.now) told.old.draft.model) }
{
    match symbol {
        Symbol::Number { quantity, .. } => first_limit(negative, told, spot, quantity),
        _ => Err(spot.fault(FaultWord::Word)),
    }
}

/// Behind a bound's first number: a comparison. An infinite number that doesn't fit it is at fault at once.
pub(crate) fn after_bound_number<'a>(
    number_spot: Spot,
    limit: Limit,
    told: &mut Told,
    spot: Spot,
    symbol: &Symbol<'_, '_>,
) -> Result<Stage<'a>, OrMemory<ModelFault>>
    ensures { Meets result (λ stage. stage_of stage told.new)
        (defs.after_bound_number (spot_of number_spot) (limit_of limit told.old.number) (spot_of spot) (symbol_of symbol.now) told.old.draft.model) }
{
    match symbol {
        Symbol::Comparison(sense) => {
            if limit.may_bound(turned(*sense)) {
                Ok(Stage::BoundMiddle(limit, *sense))
            } else {
                Err(number_spot.fault(FaultWord::Number))
            }
        }
        _ => Err(spot.fault(FaultWord::Word)),
    }
}

/// Behind a number and a comparison: the name.
pub(crate) fn after_bound_middle<'a>(
    alloc: Global,
    limit: Limit,
    sense: Sense,
    told: &mut Told,
    spot: Spot,
    symbol: &Symbol<'a, '_>,
) -> Result<Stage<'a>, OrMemory<ModelFault>>
    ensures { Meets result (λ stage. stage_of stage told.new)
        (defs.after_bound_middle (limit_of limit told.old.number) sense (spot_of spot) (symbol_of symbol.now) told.old.draft.model) }
{
    match symbol {
        Symbol::Name(name) => {
            told.draft.mention(alloc, spot, *name)?;
            told.draft.bound(*name, turned(sense), limit, &told.number);
            Ok(Stage::BoundEnd(sense, *name))
        }
        _ => Err(spot.fault(FaultWord::Word)),
    }
}

/// Behind a number, a comparison and a name twice less or twice greater makes a bound of both sides.
pub(crate) fn after_bound_end<'a>(
    alloc: Global,
    sense: Sense,
    name: &'a str,
    told: &mut Told,
    spot: Spot,
    symbol: &Symbol<'a, '_>,
) -> Result<Stage<'a>, OrMemory<ModelFault>>
    ensures { Meets result (λ stage. stage_of stage told.new) (defs.after_bound_end sense name.now (spot_of spot) (symbol_of symbol.now) told.old.draft.model) }
{
    match symbol {
        Symbol::Comparison(Sense::Less) if sense == Sense::Less => Ok(Stage::BoundSide(
            sense, name,
        )),
        Symbol::Comparison(Sense::Greater) if sense == Sense::Greater => Ok(Stage::BoundSide(
            sense, name,
        )),
        _ => after_bound(alloc, told, spot, symbol),
    }
}

/// A list of names. A later section replaces the kind that an earlier one gave.
pub(crate) fn after_kind<'a>(
    alloc: Global,
    kind: VarKind,
    told: &mut Told,
    spot: Spot,
    symbol: &Symbol<'_, '_>,
) -> Result<Stage<'a>, OrMemory<ModelFault>>
    ensures { Meets result (λ stage. stage_of stage told.new) (defs.after_kind kind (spot_of spot) (symbol_of symbol.now) told.old.draft.model) }
{
    match symbol {
        Symbol::Name(name) => {
            told.draft.mention(alloc, spot, *name)?;
            told.draft.set_kind(*name, kind);
            Ok(Stage::Kinds(kind))
        }
        Symbol::Keyword(word) => after_rows(told, spot, *word),
        _ => Err(spot.fault(FaultWord::Word)),
    }
}
