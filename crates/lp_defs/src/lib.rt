//! Definitions of a model's text, which several crates cite, with their laws.
//!
//! A text is cut into runs (`specs/Tokens.antt`). Each run is a token of some kind or has a fault (`specs/Kinds.antt`),
//! and two words on one line may have a fault together (`specs/Items.antt`). Which tokens spell which model is said
//! twice: by the productions (`specs/Grammar.antt`), and by a reading token by token, which finds the first fault too
//! (`specs/Reading.antt`). Both tell a model by the same small steps (`specs/Draft.antt`). `specs/Text.antt` says it of
//! texts, [`reading_is_the_grammar`] that the two agree, and [`spelled_models_are_lawful`] that a text spells lawful models
//! alone. `specs/Canonical.antt` has the one text that is written for a model, and [`written_is_read`] says that it spells
//! that model alone. The types that these definitions speak of stand here too.
#![tactic(auto)]

mod canonical_laws;
mod fault;
mod grammar_laws;
mod token;
mod token_laws;

pub use base_names::FaultWord;
pub use canonical_laws::written_is_read;
pub use fault::ModelFault;
pub use grammar_laws::{
    a_stop_is_final, one_model_or_one_place, reading_is_the_grammar, spelled_models_are_lawful,
};
pub use token::{LexFault, Place, SectionWord, Token, TokenKind};
pub use token_laws::{labels_are_names, names_are_tokens, names_make_labels};
