//! Laws of the definitions of commands.

ghost use Rattle.std.specs.Prelude.{◌≡◌, IsSome, List, ℕ};
ghost use Rattle.wire_text.specs.Commands.{said_as};
ghost use Rattle.wire_text.specs.declared.verb.Verb.{Verb};

/// No line is two commands: its words have the form of one at most, so the order of the table tells nothing.
#[tactic(auto, using(crate::proofs::OneForm::one_form))]
pub fn no_line_is_two_commands()
    ensures { (words : List (List ℕ)) (u v : Verb) → IsSome (said_as u words) → IsSome (said_as v words) → u ≡ v }
{}
