//! What a model under changes is at any moment, as contracts without code.
ghost use Rattle.std.specs.Prelude.{◌≡◌, ◌≤◌, ◌++◌, ◌∷◌, [], List, length, ℕ};
ghost use Rattle.model_data.specs.declared.model.Model.{Model};
ghost use Rattle.model_core.specs.One.{fold};
ghost use Rattle.model_core.specs.declared.change.Change.{Change};
ghost use Rattle.lazy_model.specs.Lazy.{latest, marked};

/// From the model that was loaded, all changes accepted since and the mark up to which they are applied: the model is theirs
/// before any change, a further change goes behind the others, an update moves the mark to the end, and a change is judged by
/// the fold of all accepted ones.
pub fn an_update_moves_the_mark()
    ensures loaded { (base : Model) → marked base [] 0 ≡ record { applied = base; queued = [] } }
    ensures queued { (base : Model) (changes : List Change) (mark : ℕ) (c : Change) → mark ≤ length changes
        → marked base (changes ++ c ∷ []) mark ≡ record (marked base changes mark) { queued = (marked base changes mark).queued ++ c ∷ [] } }
    ensures updated { (base : Model) (changes : List Change) (mark : ℕ) → mark ≤ length changes
        → marked base changes (length changes) ≡ record { applied = latest (marked base changes mark); queued = [] } }
    ensures judged { (base : Model) (changes : List Change) (mark : ℕ) → latest (marked base changes mark) ≡ fold base changes }
{}
