//! How many nodes a solve has, and which limits never end it.
ghost use Rattle.std.specs.Prelude.{◌≡◌, ℕ, List, Ok, false, length};
ghost use Rattle.dictionary.specs.declared.standard.Std.{Std};
ghost use Rattle.model_data.specs.Lawful.{IsLawful};
ghost use Rattle.model_data.specs.declared.model.Model.{Model};
ghost use Rattle.model_data.specs.declared.params.Params.{Params};
ghost use Rattle.model_data.specs.declared.sound_model.SoundModel.{SoundModel};
ghost use Rattle.solve_defs.specs.Plain.{plain_cut};
ghost use Rattle.solve_defs.specs.StandardForm.{standard_form};
ghost use Rattle.solve_defs.specs.declared.cut.Cut.{Cut};
ghost use Rattle.limit_defs.specs.Limits.{has_open, root_columns, root_rows};
ghost use Rattle.search_laws.specs.Counts.{AreOnIntegers};
ghost use Rattle.node_laws.specs.Bounds.{KeepsBounds};

use model_data::{Model, kept_numbers};

/// Where each integer variable has both bounds, the standard form within cuts of such variables has the root's columns and rows.
pub fn cuts_add_no_column_and_no_row()
    ensures columns { (m : Model) (cuts : List Cut) (s : Std) → has_open m ≡ false → AreOnIntegers m cuts → standard_form m cuts ≡ Ok s
        → length s.obj ≡ root_columns m }
    ensures rows { (m : Model) (cuts : List Cut) (s : Std) → has_open m ≡ false → AreOnIntegers m cuts → standard_form m cuts ≡ Ok s
        → length s.rows ≡ root_rows m }
{}

/// Cut after any number of turns or not at all, a solve has at most as many nodes as its model's bound, and no limit ends it that
/// allows as many nodes, or as many pivots in each.
pub fn a_solve_keeps_its_bounds()
    ensures { (m : SoundModel) (p : Params) (k : ℕ) → KeepsBounds m.model p (plain_cut m.model p k).outcome }
{}

/// Does nothing, and tells a proof the same of one model. It goes over the model's numbers once.
pub fn solves_keep_their_bounds(m: &Model)
    requires { IsLawful m.now }
    ensures { (p : Params) (k : ℕ) → KeepsBounds m.now p (plain_cut m.now p k).outcome }
{
    kept_numbers(m);
}
