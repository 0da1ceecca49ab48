//! What holds of tokens, as contracts without code.
ghost use Rattle.std.specs.Prelude.{◌≡◌, ℕ, ◌<◌, ◌↔◌, List, [], ◌∷◌, ◌++◌, IsTrue, Ok, length};
ghost use Rattle.model_data.specs.Names.{IsName};
ghost use Rattle.lp_defs.specs.declared.token.TokenKind.TheVariants.{Label, Name};
ghost use Rattle.lp_defs.specs.Kinds.{colon, front_of, kind_of};
ghost use Rattle.lp_defs.specs.Tokens.{is_plain};

/// A run is a name exactly where a variable or a row may have it as its name.
pub fn names_are_tokens()
    ensures { (run : List ℕ) → 0 < length run → IsTrue (is_plain run) → (kind_of run ≡ Ok Name) ↔ IsName run }
{}

/// What a label labels is such a name.
pub fn labels_are_names()
    ensures { (run : List ℕ) → IsTrue (is_plain run) → kind_of run ≡ Ok Label → IsName (front_of run) }
{}

/// Such a name with a colon behind it is a label.
pub fn names_make_labels()
    ensures { (name : List ℕ) → IsName name → kind_of (name ++ colon ∷ []) ≡ Ok Label }
{}
