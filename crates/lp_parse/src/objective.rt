//! From the objective word to the constraints word. Each function reads one token, and tells what stage is behind it.
ghost use Rattle.std.specs.Prelude.{◌≡◌};
ghost use Rattle.lp_defs.specs.Objective as defs;
ghost use Rattle.lp_parse.specs.Meaning.{quantity_of, second_word_of, spot_of, stage_of, summand_of, symbol_of};
ghost use Rattle.lp_parse.specs.Outcome.{Meets};

use crate::draft::{Draft, Summand};
use crate::stage::{SecondWord, Stage};
use crate::symbol::{Quantity, Spot, Symbol};
use crate::told::Told;
use base_names::{FaultWord, OrMemory};
use lp_defs::{ModelFault, SectionWord};
use model_data::Direction;
use std::alloc::Global;

/// A text begins with an objective word.
pub(crate) fn after_start<'a>(
    alloc: Global,
    told: &mut Told,
    spot: Spot,
    symbol: &Symbol<'_, '_>,
) -> Result<Stage<'a>, OrMemory<ModelFault>>
    ensures { Meets result (λ stage. stage_of stage told.new) (defs.after_start (spot_of spot) (symbol_of symbol.now)) }
{
    let direction = match symbol {
        Symbol::Keyword(SectionWord::Minimize) => Direction::Minimize,
        Symbol::Keyword(SectionWord::Maximize) => Direction::Maximize,
        _ => return Err(spot.fault(FaultWord::NoSection)),
    };
    told.draft = Draft::blank(alloc, direction);
    Ok(Stage::ObjectiveStart)
}

/// A section word behind a whole objective: the constraints word, and no other one.
fn after_objective<'a>(
    told: &mut Told,
    spot: Spot,
    word: SectionWord,
) -> Result<Stage<'a>, OrMemory<ModelFault>>
    ensures { Meets result (λ stage. stage_of stage told.new) (defs.after_objective (spot_of spot) word told.old.draft.model) }
{
    match word {
        SectionWord::Constraints => Ok(Stage::RowsStart),
        SectionWord::Subject => Ok(Stage::SecondWord(SecondWord::To)),
        SectionWord::Such => Ok(Stage::SecondWord(SecondWord::That)),
        _ => Err(spot.fault(FaultWord::NoSection)),
    }
}

pub(crate) fn after_second_word<'a>(
    wanted: SecondWord,
    told: &mut Told,
    spot: Spot,
    symbol: &Symbol<'_, '_>,
) -> Result<Stage<'a>, OrMemory<ModelFault>>
    ensures { Meets result (λ stage. stage_of stage told.new)
        (defs.after_second_word (second_word_of wanted) (spot_of spot) (symbol_of symbol.now) told.old.draft.model) }
{
    let text = match wanted {
        SecondWord::To => "to",
        SecondWord::That => "that",
    };
    match symbol {
        Symbol::Name(name) if text.eq_ignore_ascii_case(*name) => Ok(Stage::RowsStart),
        _ => Err(spot.fault(FaultWord::Word)),
    }
}

fn objective_term<'a>(
    alloc: Global,
    told: &mut Told,
    term: &Summand<'_>,
) -> Result<Stage<'a>, OrMemory<ModelFault>>
    ensures { Meets result (λ stage. stage_of stage told.new) (defs.objective_term (summand_of term.now) told.old.draft.model) }
{
    told.draft.add_to_objective(alloc, term)?;
    Ok(Stage::ObjectiveNext)
}

/// A number, with the sign in front of it.
fn objective_amount<'a>(
    negative: bool,
    told: &mut Told,
    spot: Spot,
    quantity: &Quantity<'_>,
) -> Result<Stage<'a>, OrMemory<ModelFault>>
    ensures { Meets result (λ stage. stage_of stage told.new) (defs.objective_amount negative (spot_of spot) (quantity_of quantity.now) told.old.draft.model) }
{
    quantity.signed_value(negative, spot, &mut told.number)?;
    Ok(Stage::ObjectiveNumber(spot))
}

/// A sign stands before a number or a name.
pub(crate) fn after_objective_sign<'a>(
    alloc: Global,
    negative: bool,
    told: &mut Told,
    spot: Spot,
    symbol: &Symbol<'_, '_>,
) -> Result<Stage<'a>, OrMemory<ModelFault>>
    ensures { Meets result (λ stage. stage_of stage told.new) (defs.after_objective_sign negative (spot_of spot) (symbol_of symbol.now) told.old.draft.model) }
{
    match symbol {
        Symbol::Number { quantity, .. } => objective_amount(negative, told, spot, quantity),
        Symbol::Name(name) => objective_term(alloc, told, &Summand::lone(negative, spot, *name)),
        _ => Err(spot.fault(FaultWord::Word)),
    }
}

/// A further term begins with a sign, or with a number that has one.
pub(crate) fn after_objective_term<'a>(
    told: &mut Told,
    spot: Spot,
    symbol: &Symbol<'_, '_>,
) -> Result<Stage<'a>, OrMemory<ModelFault>>
    ensures { Meets result (λ stage. stage_of stage told.new) (defs.after_objective_term (spot_of spot) (symbol_of symbol.now) told.old.draft.model) }
{
    match symbol {
        Symbol::Sign { negative } => Ok(Stage::ObjectiveSign(*negative)),
        Symbol::Number {
            signed: true,
            quantity,
        } => objective_amount(false, told, spot, quantity),
        Symbol::Keyword(word) => after_objective(told, spot, *word),
        _ => Err(spot.fault(FaultWord::Word)),
    }
}

/// The first term needs no sign.
pub(crate) fn after_objective_label<'a>(
    alloc: Global,
    told: &mut Told,
    spot: Spot,
    symbol: &Symbol<'_, '_>,
) -> Result<Stage<'a>, OrMemory<ModelFault>>
    ensures { Meets result (λ stage. stage_of stage told.new) (defs.after_objective_label (spot_of spot) (symbol_of symbol.now) told.old.draft.model) }
{
    match symbol {
        Symbol::Number { quantity, .. } => objective_amount(false, told, spot, quantity),
        Symbol::Name(name) => objective_term(alloc, told, &Summand::lone(false, spot, *name)),
        _ => after_objective_term(told, spot, symbol),
    }
}

/// An objective may have a label, which is dropped.
pub(crate) fn after_objective_word<'a>(
    alloc: Global,
    told: &mut Told,
    spot: Spot,
    symbol: &Symbol<'a, '_>,
) -> Result<Stage<'a>, OrMemory<ModelFault>>
    ensures { Meets result (λ stage. stage_of stage told.new) (defs.after_objective_word (spot_of spot) (symbol_of symbol.now) told.old.draft.model) }
{
    match symbol {
        Symbol::Label(_) => Ok(Stage::ObjectiveFirst),
        Symbol::Name(name) => Ok(Stage::ObjectiveTitle(spot, *name)),
        _ => after_objective_label(alloc, told, spot, symbol),
    }
}

/// A name at the head of the objective that no colon follows is the first term.
pub(crate) fn settle_objective_title(
    alloc: Global,
    title_spot: Spot,
    title: &str,
    draft: &mut Draft,
) -> Result<(), OrMemory<ModelFault>>
    ensures { Meets result (λ _. draft.new.model) (defs.settle_objective_title (spot_of title_spot) title.now draft.old.model) }
{
    draft.add_to_objective(alloc, &Summand::lone(false, title_spot, title))
}

pub(crate) fn after_objective_title<'a>(
    alloc: Global,
    title_spot: Spot,
    title: &str,
    told: &mut Told,
    spot: Spot,
    symbol: &Symbol<'_, '_>,
) -> Result<Stage<'a>, OrMemory<ModelFault>>
    ensures { Meets result (λ stage. stage_of stage told.new)
        (defs.after_objective_title (spot_of title_spot) title.now (spot_of spot) (symbol_of symbol.now) told.old.draft.model) }
{
    if let Symbol::Colon = symbol {
        return Ok(Stage::ObjectiveFirst);
    }
    settle_objective_title(alloc, title_spot, title, &mut told.draft)?;
    after_objective_term(told, spot, symbol)
}

/// A name behind a number is its term's. A number that no name follows is added to the constant.
pub(crate) fn after_objective_number<'a>(
    alloc: Global,
    number_spot: Spot,
    told: &mut Told,
    spot: Spot,
    symbol: &Symbol<'_, '_>,
) -> Result<Stage<'a>, OrMemory<ModelFault>>
    ensures { Meets result (λ stage. stage_of stage told.new)
        (defs.after_objective_number (spot_of number_spot) told.old.number (spot_of spot) (symbol_of symbol.now) told.old.draft.model) }
{
    if let Symbol::Name(name) = symbol {
        let term = Summand::numbered(number_spot, told.number, spot, *name);
        return objective_term(alloc, told, &term);
    }
    told.draft.add_to_constant(number_spot, told.number)?;
    after_objective_term(told, spot, symbol)
}
