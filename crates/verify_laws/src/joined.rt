//! What a solve writes is read and found valid.
ghost use Rattle.std.specs.Prelude.{ℕ, ◌≤◌, ◌<◌, List, Option, Some, length};
ghost use Rattle.model_data.specs.declared.model.Model.{Model};
ghost use Rattle.model_data.specs.declared.params.Params.{Params};
ghost use Rattle.solve_defs.specs.declared.verdict.Verdict.{Verdict};
ghost use Rattle.solve_defs.specs.declared.verdict.Verdict.TheVariants.{Valid};
ghost use Rattle.verify_command.specs.Findings.{IsFinding};
ghost use Rattle.verify_command.specs.Input.{HasParts};
ghost use Rattle.verify_command.specs.Verify.{VerifySays};
ghost use Rattle.verify_command.specs.declared.command.TheConstants.{VERIFY_LIMIT};
ghost use Rattle.verify_command.specs.declared.command.VerifyEnd.{VerifyEnd};
ghost use Rattle.verify_command.specs.declared.finding.Finding.TheVariants.{Checked};
ghost use Rattle.verify_laws.specs.Joined.{AllFit, EndsChecked, EndsTooLong, IsNotInvalid, IsSolve};

use cert_check::a_verdict_tells_the_first_failure;
use solver_laws::a_solve_is_right;

/// An input of a model's text and the text of a solve of it is checked, and no place fails; where each operation of the check fits,
/// it is valid. So `verify` ends in no other way where it has the input whole, and one that is too long is told as such, but for
/// faults and want of memory.
pub fn what_is_solved_is_verified()
    ensures checked { (m : Model) (p : Params) (k : ℕ) (block answer input : List ℕ) → IsSolve m p k block answer → HasParts input block answer
        → (v : Verdict) × IsFinding input (Checked v) × IsNotInvalid v }
    ensures valid { (m : Model) (p : Params) (k : ℕ) (block answer input : List ℕ) → IsSolve m p k block answer → HasParts input block answer
        → AllFit m p k → IsFinding input (Checked Valid) }
    ensures ends { (m : Model) (p : Params) (k : ℕ) (block answer input : List ℕ) (end : VerifyEnd) (left contents contents' : Option (List ℕ))
        → IsSolve m p k block answer → HasParts input block answer → length input ≤ VERIFY_LIMIT
        → VerifySays end (Some input) left contents contents' → EndsChecked end }
    ensures too_long { (input : List ℕ) (end : VerifyEnd) (left contents contents' : Option (List ℕ)) → VERIFY_LIMIT < length input
        → VerifySays end (Some input) left contents contents' → EndsTooLong end }
{
    a_solve_is_right();
    a_verdict_tells_the_first_failure();
}
