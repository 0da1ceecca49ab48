//! A law of what a script tells, as a contract without code.

ghost use Rattle.std.specs.Prelude.{◌≡◌, ℕ, List, Some};
ghost use Rattle.base_io.specs.Frames.{frames_of};
ghost use Rattle.model_data.specs.declared.batch.BatchBody.{BatchBody};
ghost use Rattle.model_data.specs.declared.batch.BatchResult.{BatchResult};
ghost use Rattle.script_text.specs.Steps.{block_wanted};
ghost use Rattle.session.specs.Beginning.{at_first};
ghost use Rattle.replay_world.specs.Steps.{Memory};
ghost use Rattle.replay_command.specs.Numbering.{IsLineAt};
ghost use Rattle.replay_command.specs.Script.{Fresh, refused_line, script_writing};

/// The number of a refused line counts the lines of the script from 1 on, blocks apart, and each line before it was taken.
pub fn a_refused_line_is_counted()
    ensures { (plain : BatchBody → BatchResult) (memory : List Memory) (line : ℕ) (input : List ℕ) → refused_line (script_writing plain at_first memory) input ≡ Some line
        → IsLineAt plain (record { standing = Fresh; memory = memory }) line (frames_of block_wanted input) }
{}
