//! Rows. Each function reads one token, and tells what stage is behind it.
ghost use Rattle.std.specs.Prelude.{◌≡◌};
ghost use Rattle.lp_defs.specs.Rows as defs;
ghost use Rattle.lp_parse.specs.Meaning.{quantity_of, spot_of, stage_of, summand_of, symbol_of};
ghost use Rattle.lp_parse.specs.Outcome.{Meets};

use crate::draft::{Draft, Summand};
use crate::stage::Stage;
use crate::symbol::{Quantity, Spot, Symbol};
use crate::told::Told;
use base_names::{FaultWord, OrMemory};
use lp_defs::{ModelFault, SectionWord};
use model_data::{Sense, VarKind};
use std::alloc::Global;

/// A section word behind the rows, a whole bound or a list of names: a further section, or `end`.
pub(crate) fn after_rows<'a>(
    told: &mut Told,
    spot: Spot,
    word: SectionWord,
) -> Result<Stage<'a>, OrMemory<ModelFault>>
    ensures { Meets result (λ stage. stage_of stage told.new) (defs.after_rows (spot_of spot) word told.old.draft.model) }
{
    match word {
        SectionWord::Bounds => Ok(Stage::Bounds),
        SectionWord::General => Ok(Stage::Kinds(VarKind::Integer)),
        SectionWord::Binary => Ok(Stage::Kinds(VarKind::Binary)),
        SectionWord::End => Ok(Stage::Ended),
        _ => Err(spot.fault(FaultWord::Word)),
    }
}

fn row_term<'a>(
    alloc: Global,
    told: &mut Told,
    term: &Summand<'_>,
) -> Result<Stage<'a>, OrMemory<ModelFault>>
    ensures { Meets result (λ stage. stage_of stage told.new) (defs.row_term (summand_of term.now) told.old.draft) }
{
    told.draft.add_to_row(alloc, term)?;
    Ok(Stage::RowNext)
}

/// A number of the first term or of a later one, with the sign in front of it.
fn row_amount<'a>(
    first: bool,
    negative: bool,
    told: &mut Told,
    spot: Spot,
    quantity: &Quantity<'_>,
) -> Result<Stage<'a>, OrMemory<ModelFault>>
    ensures { Meets result (λ stage. stage_of stage told.new) (defs.row_amount first negative (spot_of spot) (quantity_of quantity.now) told.old.draft) }
{
    quantity.signed_value(negative, spot, &mut told.number)?;
    Ok(Stage::RowNumber(first, spot))
}

/// A sign stands before a number or a name.
pub(crate) fn after_row_sign<'a>(
    alloc: Global,
    first: bool,
    negative: bool,
    told: &mut Told,
    spot: Spot,
    symbol: &Symbol<'_, '_>,
) -> Result<Stage<'a>, OrMemory<ModelFault>>
    ensures { Meets result (λ stage. stage_of stage told.new) (defs.after_row_sign first negative (spot_of spot) (symbol_of symbol.now) told.old.draft) }
{
    match symbol {
        Symbol::Number { quantity, .. } => row_amount(first, negative, told, spot, quantity),
        Symbol::Name(name) => row_term(alloc, told, &Summand::lone(negative, spot, *name)),
        _ => Err(spot.fault(FaultWord::Word)),
    }
}

/// A number on the left side stands before a name. One that begins a row and stands alone isn't supported.
pub(crate) fn after_row_number<'a>(
    alloc: Global,
    first: bool,
    number_spot: Spot,
    told: &mut Told,
    spot: Spot,
    symbol: &Symbol<'_, '_>,
) -> Result<Stage<'a>, OrMemory<ModelFault>>
    ensures { Meets result (λ stage. stage_of stage told.new)
        (defs.after_row_number first (spot_of number_spot) told.old.number (spot_of spot) (symbol_of symbol.now) told.old.draft) }
{
    match symbol {
        Symbol::Name(name) => {
            let term = Summand::numbered(number_spot, told.number, spot, *name);
            row_term(alloc, told, &term)
        }
        Symbol::Comparison(_) if first => Err(spot.fault(FaultWord::Unsupported)),
        _ => Err(spot.fault(FaultWord::Word)),
    }
}

/// Behind a term: the comparison, or a further term, which begins with a sign or with a number that has one.
pub(crate) fn after_row_term<'a>(
    told: &mut Told,
    spot: Spot,
    symbol: &Symbol<'_, '_>,
) -> Result<Stage<'a>, OrMemory<ModelFault>>
    ensures { Meets result (λ stage. stage_of stage told.new) (defs.after_row_term (spot_of spot) (symbol_of symbol.now) told.old.draft) }
{
    match symbol {
        Symbol::Sign { negative } => Ok(Stage::RowSign(false, *negative)),
        Symbol::Number {
            signed: true,
            quantity,
        } => row_amount(false, false, told, spot, quantity),
        Symbol::Comparison(sense) => Ok(Stage::RowSide(*sense)),
        _ => Err(spot.fault(FaultWord::Word)),
    }
}

/// Behind a label: the first term, which needs no sign, or the comparison, since a row may have no terms.
pub(crate) fn after_row_label<'a>(
    alloc: Global,
    told: &mut Told,
    spot: Spot,
    symbol: &Symbol<'_, '_>,
) -> Result<Stage<'a>, OrMemory<ModelFault>>
    ensures { Meets result (λ stage. stage_of stage told.new) (defs.after_row_label (spot_of spot) (symbol_of symbol.now) told.old.draft) }
{
    match symbol {
        Symbol::Sign { negative } => Ok(Stage::RowSign(true, *negative)),
        Symbol::Number { quantity, .. } => row_amount(true, false, told, spot, quantity),
        Symbol::Name(name) => row_term(alloc, told, &Summand::lone(false, spot, *name)),
        Symbol::Comparison(sense) => Ok(Stage::RowSide(*sense)),
        _ => Err(spot.fault(FaultWord::Word)),
    }
}

/// A row with a label.
fn labelled_row<'a>(
    alloc: Global,
    told: &mut Told,
    spot: Spot,
    label: &str,
) -> Result<Stage<'a>, OrMemory<ModelFault>>
    ensures { Meets result (λ stage. stage_of stage told.new) (defs.labelled_row (spot_of spot) label.now told.old.draft.model) }
{
    told.draft.open_row(alloc, spot, label)?;
    Ok(Stage::RowFirst)
}

/// A row without a label, whose first token this is.
fn unlabelled_row<'a>(
    alloc: Global,
    told: &mut Told,
    spot: Spot,
    symbol: &Symbol<'_, '_>,
) -> Result<Stage<'a>, OrMemory<ModelFault>>
    ensures { Meets result (λ stage. stage_of stage told.new) (defs.unlabelled_row (spot_of spot) (symbol_of symbol.now) told.old.draft.model) }
{
    told.draft.open_unlabelled_row(alloc, spot)?;
    after_row_label(alloc, told, spot, symbol)
}

/// Behind a right side: a further row, a section or `end`. A row without a label and terms can't begin here.
pub(crate) fn after_row<'a>(
    alloc: Global,
    told: &mut Told,
    spot: Spot,
    symbol: &Symbol<'a, '_>,
) -> Result<Stage<'a>, OrMemory<ModelFault>>
    ensures { Meets result (λ stage. stage_of stage told.new) (defs.after_row (spot_of spot) (symbol_of symbol.now) told.old.draft.model) }
{
    match symbol {
        Symbol::Label(label) => labelled_row(alloc, told, spot, *label),
        Symbol::Name(name) => Ok(Stage::RowTitle(spot, *name)),
        Symbol::Sign { .. } | Symbol::Number { .. } => unlabelled_row(alloc, told, spot, symbol),
        Symbol::Comparison(_) => Err(spot.fault(FaultWord::Unsupported)),
        Symbol::Keyword(word) => after_rows(told, spot, *word),
        Symbol::Colon => Err(spot.fault(FaultWord::Word)),
    }
}

/// Behind the constraints word a row may begin with its comparison too.
pub(crate) fn after_constraints<'a>(
    alloc: Global,
    told: &mut Told,
    spot: Spot,
    symbol: &Symbol<'a, '_>,
) -> Result<Stage<'a>, OrMemory<ModelFault>>
    ensures { Meets result (λ stage. stage_of stage told.new) (defs.after_constraints (spot_of spot) (symbol_of symbol.now) told.old.draft.model) }
{
    match symbol {
        Symbol::Comparison(_) => unlabelled_row(alloc, told, spot, symbol),
        _ => after_row(alloc, told, spot, symbol),
    }
}

/// A name at the head of a row that no colon follows is its first term's, and the row has no label.
pub(crate) fn settle_row_title(
    alloc: Global,
    title_spot: Spot,
    title: &str,
    draft: &mut Draft,
) -> Result<(), OrMemory<ModelFault>>
    ensures { Meets result (λ _. draft.new) (defs.settle_row_title (spot_of title_spot) title.now draft.old.model) }
{
    draft.open_unlabelled_row(alloc, title_spot)?;
    draft.add_to_row(alloc, &Summand::lone(false, title_spot, title))
}

pub(crate) fn after_row_title<'a>(
    alloc: Global,
    title_spot: Spot,
    title: &str,
    told: &mut Told,
    spot: Spot,
    symbol: &Symbol<'_, '_>,
) -> Result<Stage<'a>, OrMemory<ModelFault>>
    ensures { Meets result (λ stage. stage_of stage told.new)
        (defs.after_row_title (spot_of title_spot) title.now (spot_of spot) (symbol_of symbol.now) told.old.draft.model) }
{
    if let Symbol::Colon = symbol {
        return labelled_row(alloc, told, title_spot, title);
    }
    settle_row_title(alloc, title_spot, title, &mut told.draft)?;
    after_row_term(told, spot, symbol)
}

/// The right side, with the sign in front of it.
fn right_side<'a>(
    alloc: Global,
    negative: bool,
    sense: Sense,
    told: &mut Told,
    spot: Spot,
    quantity: &Quantity<'_>,
) -> Result<Stage<'a>, OrMemory<ModelFault>>
    ensures { Meets result (λ stage. stage_of stage told.new) (defs.right_side negative sense (spot_of spot) (quantity_of quantity.now) told.old.draft) }
{
    quantity.signed_value(negative, spot, &mut told.number)?;
    told.draft.close_row(alloc, sense, told.number)?;
    Ok(Stage::RowsNext)
}

/// A sign stands before the right side's number.
pub(crate) fn after_side_sign<'a>(
    alloc: Global,
    negative: bool,
    sense: Sense,
    told: &mut Told,
    spot: Spot,
    symbol: &Symbol<'_, '_>,
) -> Result<Stage<'a>, OrMemory<ModelFault>>
    ensures { Meets result (λ stage. stage_of stage told.new) (defs.after_side_sign negative sense (spot_of spot) (symbol_of symbol.now) told.old.draft) }
{
    match symbol {
        Symbol::Number { quantity, .. } => right_side(alloc, negative, sense, told, spot, quantity),
        _ => Err(spot.fault(FaultWord::Word)),
    }
}

/// Behind the comparison: one sign, or the number.
pub(crate) fn after_comparison<'a>(
    alloc: Global,
    sense: Sense,
    told: &mut Told,
    spot: Spot,
    symbol: &Symbol<'_, '_>,
) -> Result<Stage<'a>, OrMemory<ModelFault>>
    ensures { Meets result (λ stage. stage_of stage told.new) (defs.after_comparison sense (spot_of spot) (symbol_of symbol.now) told.old.draft) }
{
    match symbol {
        Symbol::Sign { negative } => Ok(Stage::RowSideSign(*negative, sense)),
        Symbol::Number { quantity, .. } => right_side(alloc, false, sense, told, spot, quantity),
        _ => Err(spot.fault(FaultWord::Word)),
    }
}
