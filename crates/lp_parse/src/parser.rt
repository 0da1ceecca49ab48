//! A text read token by token.
ghost use Rattle.std.specs.Prelude.{◌≡◌, ◌^◌, ◌-◌, ◌<◌, ◌≤◌, Err, IfOk, IsTrue, Ok, length, slice_range};
ghost use Rattle.base_names.specs.declared.memory.OrMemory.TheVariants.{Fault};
ghost use Rattle.lp_defs.specs.declared.fault.ModelFault.{ModelFault};
ghost use Rattle.lp_defs.specs.Reading as defs;
ghost use Rattle.lp_defs.specs.Symbols as seen;
ghost use Rattle.lp_defs.specs.Text.{Spells, Stops};
ghost use Rattle.lp_defs.specs.Tokens.{is_plain};
ghost use Rattle.lp_lex.specs.Class.{kind_with};
ghost use Rattle.model_data.specs.Lawful.{IsLawful};
ghost use Rattle.lp_parse.specs.Meaning.{spot_of, stage_of, symbol_of};
ghost use Rattle.lp_parse.specs.Outcome.{Meets};

use crate::objective::{
    after_objective_label, after_objective_number, after_objective_sign, after_objective_term,
    after_objective_title, after_objective_word, after_second_word, after_start,
    settle_objective_title,
};
use crate::rows::{
    after_comparison, after_constraints, after_row, after_row_label, after_row_number,
    after_row_sign, after_row_term, after_row_title, after_side_sign, settle_row_title,
};
use crate::sections::{
    after_bound, after_bound_end, after_bound_middle, after_bound_name, after_bound_number,
    after_bound_side, after_bound_side_sign, after_bound_sign, after_kind,
};
use crate::stage::Stage;
use crate::symbol::{Spot, Symbol, fault_of_run, symbol_of};
use crate::told::Told;
use base_names::{FaultWord, OrMemory};
use frac128::Frac;
use lp_defs::ModelFault;
use lp_lex::{ClassedToken, Lexer};
use model_data::Model;
use std::alloc::Global;

/// The model that the text spells, or the first place at which it stops to be a model's text.
///
/// The text has fewer than 2^32 - 1 bytes.
pub fn parse(alloc: Global, text: &[u8]) -> Result<Model, OrMemory<ModelFault>>
    requires { length text.now < 2 ^ 32 - 1 }
    ensures ok { IfOk result (λ m. Spells text.now m) }
    ensures lawful { IfOk result IsLawful }
    ensures fault { (fault : ModelFault) → result ≡ Err (Fault fault) → Stops text.now fault }
{
    let mut lexer = Lexer::new(text);
    let mut value = Frac::zero();
    let mut told = Told::blank(alloc);
    let mut stage = Stage::Start;
    loop {
        match lexer.next_classed(&mut value) {
            Ok(Some(token)) => match after_token(alloc, &stage, &mut told, text, &token, &value) {
                Ok(next) => stage = next,
                Err(fault) => return Err(fault),
            },
            Ok(None) => return at_the_end(alloc, &stage, told, Spot::of_place(lexer.end())),
            Err(fault) => return Err(stopped(alloc, &stage, &mut told, fault_of_run(fault))),
        }
    }
}

/// The stage behind a token of the text, with its value where it is a number.
fn after_token<'a>(
    alloc: Global,
    stage: &Stage<'a>,
    told: &mut Told,
    text: &'a [u8],
    token: &ClassedToken,
    value: &Frac,
) -> Result<Stage<'a>, OrMemory<ModelFault>>
    requires forward { token.now.start ≤ token.now.end }
    requires in_text { token.now.end ≤ length text.now }
    requires plain { IsTrue (is_plain (slice_range text.now token.now.start token.now.end)) }
    ensures { Meets result (λ next. stage_of next told.new) (defs.after (stage_of stage.now told.old)
        (record { line = token.now.line; column = token.now.column })
        (seen.symbol_of (kind_with token.now.class value.now) (slice_range text.now token.now.start token.now.end))) }
{
    let bytes = &text[token.start as usize..token.end as usize];
    let spot = Spot::of_token(token);
    after(
        alloc,
        stage,
        told,
        spot,
        &symbol_of(token.class, value, bytes),
    )
}

/// The stage behind what the grammar sees of a token.
fn after<'a>(
    alloc: Global,
    stage: &Stage<'a>,
    told: &mut Told,
    spot: Spot,
    symbol: &Symbol<'a, '_>,
) -> Result<Stage<'a>, OrMemory<ModelFault>>
    ensures { Meets result (λ next. stage_of next told.new) (defs.after (stage_of stage.now told.old) (spot_of spot) (symbol_of symbol.now)) }
{
    match stage {
        Stage::Start => after_start(alloc, told, spot, symbol),
        Stage::ObjectiveStart => after_objective_word(alloc, told, spot, symbol),
        Stage::ObjectiveTitle(at, title) => after_objective_title(
            alloc, *at, *title, told, spot, symbol,
        ),
        Stage::ObjectiveFirst => after_objective_label(alloc, told, spot, symbol),
        Stage::ObjectiveSign(negative) => after_objective_sign(
            alloc, *negative, told, spot, symbol,
        ),
        Stage::ObjectiveNumber(at) => after_objective_number(alloc, *at, told, spot, symbol),
        Stage::ObjectiveNext => after_objective_term(told, spot, symbol),
        Stage::SecondWord(wanted) => after_second_word(*wanted, told, spot, symbol),
        Stage::RowsStart => after_constraints(alloc, told, spot, symbol),
        Stage::RowsNext => after_row(alloc, told, spot, symbol),
        Stage::RowTitle(at, title) => after_row_title(alloc, *at, *title, told, spot, symbol),
        Stage::RowFirst => after_row_label(alloc, told, spot, symbol),
        Stage::RowSign(first, negative) => after_row_sign(
            alloc, *first, *negative, told, spot, symbol,
        ),
        Stage::RowNumber(first, at) => after_row_number(alloc, *first, *at, told, spot, symbol),
        Stage::RowNext => after_row_term(told, spot, symbol),
        Stage::RowSide(sense) => after_comparison(alloc, *sense, told, spot, symbol),
        Stage::RowSideSign(negative, sense) => after_side_sign(
            alloc, *negative, *sense, told, spot, symbol,
        ),
        Stage::Bounds => after_bound(alloc, told, spot, symbol),
        Stage::BoundName(name) => after_bound_name(*name, told, spot, symbol),
        Stage::BoundSide(sense, name) => after_bound_side(*sense, *name, told, spot, symbol),
        Stage::BoundSideSign(negative, sense, name) => after_bound_side_sign(
            *negative, *sense, *name, told, spot, symbol,
        ),
        Stage::BoundSign(negative) => after_bound_sign(*negative, told, spot, symbol),
        Stage::BoundNumber(at, limit) => after_bound_number(*at, *limit, told, spot, symbol),
        Stage::BoundMiddle(limit, sense) => after_bound_middle(
            alloc, *limit, *sense, told, spot, symbol,
        ),
        Stage::BoundEnd(sense, name) => after_bound_end(alloc, *sense, *name, told, spot, symbol),
        Stage::Kinds(kind) => after_kind(alloc, *kind, told, spot, symbol),
        Stage::Ended => Err(spot.fault(FaultWord::AfterEnd)),
    }
}

/// Where no further token follows, this fault comes, unless what waited for the next token has an earlier one.
fn stopped(
    alloc: Global,
    stage: &Stage<'_>,
    told: &mut Told,
    fault: ModelFault,
) -> OrMemory<ModelFault>
    ensures { (first : ModelFault) → result ≡ Fault first → defs.stopped (stage_of stage.now told.old) fault ≡ first }
{
    let settled = match stage {
        Stage::ObjectiveTitle(spot, title) => settle_objective_title(
            alloc,
            *spot,
            *title,
            &mut told.draft,
        ),
        Stage::ObjectiveNumber(spot) => told.draft.add_to_constant(*spot, told.number),
        Stage::RowTitle(spot, title) => settle_row_title(alloc, *spot, *title, &mut told.draft),
        _ => Ok(()),
    };
    match settled {
        Ok(()) => OrMemory::Fault(fault),
        Err(earlier) => earlier,
    }
}

/// A text may end behind `end` alone.
fn at_the_end(
    alloc: Global,
    stage: &Stage<'_>,
    mut told: Told,
    end: Spot,
) -> Result<Model, OrMemory<ModelFault>>
    ensures { Meets result (λ m. m) (defs.at_the_end (stage_of stage.now told) (spot_of end)) }
{
    if let Stage::Ended = stage {
        return Ok(told.into_model());
    }
    let fault = end.model_fault(FaultWord::NoSection);
    Err(stopped(alloc, stage, &mut told, fault))
}
