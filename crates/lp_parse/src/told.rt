//! What a part of a text has told.
ghost use Rattle.std.specs.Prelude.{◌≡◌, []};
ghost use Rattle.lp_defs.specs.Draft as defs;
ghost use Rattle.model_data.specs.declared.model.Direction.TheVariants.{Minimize};

use crate::draft::Draft;
use frac128::Frac;
use model_data::{Direction, Model};
use std::alloc::Global;

/// What has been told so far.
///
/// The number stands here and in no stage, so that a stage fits into a few registers.
#[derive(Drop)]
pub(crate) struct Told {
    pub(crate) draft: Draft,
    /// The number that was read last, which may wait for what it belongs to.
    pub(crate) number: Frac,
}

impl Told {
    /// Nothing. It takes no memory.
    pub(crate) fn blank(alloc: Global) -> Told
        ensures { result.draft ≡ defs.new_row [] (defs.blank Minimize) }
    {
        Told {
            draft: Draft::blank(alloc, Direction::Minimize),
            number: Frac::zero(),
        }
    }

    /// The model of the whole rows.
    pub(crate) fn into_model(self) -> Model
        ensures { result ≡ self.draft.model }
    {
        self.draft.into_model()
    }
}
