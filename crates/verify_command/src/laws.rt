//! Laws of what is found in an input, as contracts without code.

ghost use Rattle.std.specs.Prelude.{◌≡◌, ℕ, List};
ghost use Rattle.solve_defs.specs.declared.verdict.Verdict.TheVariants.{Valid};
ghost use Rattle.verify_command.specs.Findings.{Finds, IsVerified};
ghost use Rattle.verify_command.specs.Input.{HasParts};
ghost use Rattle.verify_command.specs.declared.finding.Finding.{Finding};
ghost use Rattle.verify_command.specs.declared.finding.Finding.TheVariants.{Checked};

/// An input has one block with one text behind it, if any, and one thing is found in it.
pub fn an_input_has_one_finding()
    ensures parts { (input a b s t : List ℕ) → HasParts input a s → HasParts input b t → (a ≡ b) × (s ≡ t) }
    ensures finding { (input : List ℕ) (f g : Finding) → Finds input f → Finds input g → f ≡ g }
{}

/// A certificate that is found valid shows what its outcome says of the model.
pub fn a_valid_input_is_verified()
    ensures { (input : List ℕ) → Finds input (Checked Valid) → IsVerified input }
{}
