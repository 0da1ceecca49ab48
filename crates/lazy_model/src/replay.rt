//! The log between two models: its changes are made again, or a further one comes to it.
ghost use Rattle.std.specs.Prelude.{◌≡◌, ◌⊎◌, ◌++◌, ◌∷◌, [], IfErr, IsOk, OnErr, OnOk, drop};
ghost use Rattle.base_names.specs.declared.refusal.Refusal.TheVariants.{MEMORY};
ghost use Rattle.model_core.specs.Asked.{IsLawfulChange};
ghost use Rattle.model_core.specs.One.{fold, one};
ghost use Rattle.lazy_model.specs.Log.{IsBeside, IsLog, queued_of};

use base_names::Refusal;
use model_core::{Change, IndexedModel};
use std::alloc::Global;
use std::collections::VecDeque;

/// Where the other model stands, by the log's changes.
#[derive(Clone, Copy, Debug, PartialEq, Eq)]
pub(crate) enum Side {
    /// It is no model of these changes, of which there are none.
    Apart,
    /// It has them, and the applied model lacks them.
    Ahead,
    /// It lacks them, and the applied model has them.
    Behind,
}

/// Brings the other model ahead of the applied one, where it isn't. Want of memory leaves it apart, or behind by fewer
/// changes.
#[tactic(auto, using(crate::proofs::Logs::beside_ahead, crate::proofs::Logs::beside_apart, crate::proofs::Logs::apart_beside, crate::proofs::Logs::queued_apart, crate::proofs::Logs::same_log, crate::proofs::Logs::beside_behind, crate::proofs::Logs::behind_beside, crate::proofs::Logs::queued_ahead, crate::proofs::Logs::queued_behind, crate::proofs::Logs::turned))]
pub(crate) fn bring_ahead(
    alloc: Global,
    applied: &IndexedModel,
    other: &mut IndexedModel,
    log: &mut VecDeque<Change>,
    side: Side,
) -> Result<(), Refusal>
    requires { IsBeside side log.old.items applied.now other.old }
    ensures ahead { OnOk result (IsLog log.new.items applied.now other.new) }
    ensures queued { OnOk result (log.new.items ≡ queued_of side log.old.items) }
    ensures behind { OnErr result (IsBeside side log.new.items applied.now other.new) }
    ensures unchanged { OnErr result (queued_of side log.new.items ≡ queued_of side log.old.items) }
    ensures memory { IfErr result (λ r. r ≡ MEMORY) }
{
    match side {
        Side::Apart => {
            *other = applied.copy(alloc)?;
            Ok(())
        }
        Side::Ahead => Ok(()),
        Side::Behind => replay(alloc, applied, other, log),
    }
}

/// Makes the changes of the log on the model that lacks them, each of which leaves the log.
fn replay(
    alloc: Global,
    ahead: &IndexedModel,
    behind: &mut IndexedModel,
    log: &mut VecDeque<Change>,
) -> Result<(), Refusal>
    requires { IsLog log.old.items behind.old ahead.now }
    ensures log { IsLog log.new.items behind.new ahead.now }
    ensures done { OnOk result (log.new.items ≡ []) }
    ensures memory { IfErr result (λ r. r ≡ MEMORY) }
{
    for _turn in 0..log.len() {
        replay_first(alloc, ahead, behind, log)?;
    }
    Ok(())
}

/// Makes the first change of the log, which leaves it.
fn replay_first(
    alloc: Global,
    ahead: &IndexedModel,
    behind: &mut IndexedModel,
    log: &mut VecDeque<Change>,
) -> Result<(), Refusal>
    requires { IsLog log.old.items behind.old ahead.now }
    ensures log { IsLog log.new.items behind.new ahead.now }
    ensures shorter { OnOk result (log.new.items ≡ drop 1 log.old.items) }
    ensures memory { IfErr result (λ r. r ≡ MEMORY) }
{
    if let Some(change) = log.front() {
        behind.change(alloc, change)?;
        log.pop_front();
    }
    Ok(())
}

/// Makes a further change on the model that is ahead, and puts it behind the others.
pub(crate) fn accept(
    alloc: Global,
    applied: &IndexedModel,
    ahead: &mut IndexedModel,
    log: &mut VecDeque<Change>,
    change: Change,
) -> Result<(), Refusal>
    requires log { IsLog log.old.items applied.now ahead.old }
    requires change { IsLawfulChange change }
    ensures log { IsLog log.new.items applied.now ahead.new }
    ensures accepted { OnOk result (IsOk (one (fold applied.now log.old.items) change)) }
    ensures ok { OnOk result (log.new.items ≡ log.old.items ++ change ∷ []) }
    ensures refused { IfErr result (λ r. (r ≡ MEMORY) ⊎ (one (fold applied.now log.old.items) change ≡ Err r)) }
    ensures unchanged { OnErr result (log.new.items ≡ log.old.items) }
{
    log.reserve(1)?;
    ahead.change(alloc, &change)?;
    log.push_back_reserved(change);
    Ok(())
}
