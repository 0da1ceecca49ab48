//! Laws of the lines that give commands.
//!
//! `wire_text` defines which command a line is. Here each command has a line (`specs/Written.antt`), and
//! [`each_command_has_a_line`] says that the line is read as it, and that every command that is read has one.
#![tactic(auto)]

ghost use Rattle.std.specs.Prelude.{◌≡◌, List, Ok, ℕ};
ghost use Rattle.wire_laws.specs.Written.{HasLine, line_for};
ghost use Rattle.wire_text.specs.Commands.{command_of};
ghost use Rattle.wire_text.specs.declared.command.Command.{Command};

/// The line that is written for a command is read as it, and whatever command is read has such a line.
pub fn each_command_has_a_line()
    ensures written { (command : Command) → HasLine command → command_of (line_for command) ≡ Ok command }
    ensures read { (line : List ℕ) (command : Command) → command_of line ≡ Ok command → HasLine command }
{}
