//! The commands by which `clap` reads the words.

ghost use Rattle.std.specs.Prelude.{◌≡◌, [], true, false, None, Some, codes, IfOk, IfErr};
ghost use Rattle.clap.specs.Simple.{app_of, shape_of, new_app, new_rule, with_rule, with_subcommand};
ghost use Rattle.clap.specs.declared.builder.command.Command.TheViews.{out-Command};
ghost use Rattle.command_words.specs.Commands.{bare, command_of, option_arg, with_commands};
ghost use Rattle.command_words.specs.Table.{line, table, session_line, work_line, solve_line, load_line, serve_line};

use clap::{Arg, ArgAction, Command};
use std::alloc::{AllocError, Global};

/// An option with a value.
fn with_value<'a>(
    alloc: Global,
    command: Command<'a>,
    name: &'a str,
) -> Result<Command<'a>, AllocError>
    ensures app { IfOk result (λ r. app_of r ≡ with_rule (app_of command.entry) (option_arg (name.entry.now, true))) }
    ensures local { IfOk result (λ r. (out-Command r).has_globals ≡ (out-Command command.entry).has_globals) }
{
    let arg = Arg::new(alloc, name).long(name);
    command.arg(arg)
}

/// An option without one.
fn with_flag<'a>(
    alloc: Global,
    command: Command<'a>,
    name: &'a str,
) -> Result<Command<'a>, AllocError>
    ensures app { IfOk result (λ r. app_of r ≡ with_rule (app_of command.entry) (option_arg (name.entry.now, false))) }
    ensures local { IfOk result (λ r. (out-Command r).has_globals ≡ (out-Command command.entry).has_globals) }
{
    let arg = Arg::new(alloc, name).long(name).action(ArgAction::SetTrue);
    command.arg(arg)
}

/// A word without hyphens.
fn with_place<'a>(
    alloc: Global,
    command: Command<'a>,
    name: &'a str,
) -> Result<Command<'a>, AllocError>
    ensures app { IfOk result (λ r. app_of r ≡ with_rule (app_of command.entry) (new_rule name.entry.now)) }
    ensures local { IfOk result (λ r. (out-Command r).has_globals ≡ (out-Command command.entry).has_globals) }
{
    command.arg(Arg::new(alloc, name))
}

fn session_command<'a>(alloc: Global) -> Result<Command<'a>, AllocError>
    ensures shape { IfOk result (λ r. shape_of r ≡ command_of (codes "session", session_line)) }
    ensures local { IfOk result (λ r. (out-Command r).has_globals ≡ false) }
{
    let command = Command::new(alloc, "session");
    let command = with_flag(alloc, command, "admin")?;
    let command = with_value(alloc, command, "journal")?;
    with_place(alloc, command, "NAME")
}

fn work_command<'a>(alloc: Global) -> Result<Command<'a>, AllocError>
    ensures shape { IfOk result (λ r. shape_of r ≡ command_of (codes "work", work_line)) }
    ensures local { IfOk result (λ r. (out-Command r).has_globals ≡ false) }
{
    let command = Command::new(alloc, "work");
    with_value(alloc, command, "journal")
}

fn solve_command<'a>(alloc: Global) -> Result<Command<'a>, AllocError>
    ensures shape { IfOk result (λ r. shape_of r ≡ command_of (codes "solve", solve_line)) }
    ensures local { IfOk result (λ r. (out-Command r).has_globals ≡ false) }
{
    let command = Command::new(alloc, "solve");
    let command = with_value(alloc, command, "iterations")?;
    let command = with_value(alloc, command, "nodes")?;
    with_value(alloc, command, "work")
}

fn load_command<'a>(alloc: Global) -> Result<Command<'a>, AllocError>
    ensures shape { IfOk result (λ r. shape_of r ≡ command_of (codes "load", load_line)) }
    ensures local { IfOk result (λ r. (out-Command r).has_globals ≡ false) }
{
    let command = Command::new(alloc, "load");
    with_place(alloc, command, "SEED")
}

/// A subcommand with no words behind it.
fn lone_command<'a>(alloc: Global, name: &'a str) -> Command<'a>
    ensures shape { shape_of result ≡ command_of (name.entry.now, line [] None) }
    ensures local { (out-Command result).has_globals ≡ false }
{
    Command::new(alloc, name)
}

fn serve_command<'a>(alloc: Global) -> Result<Command<'a>, AllocError>
    ensures shape { IfOk result (λ r. shape_of r ≡ command_of (codes "serve", serve_line)) }
    ensures local { IfOk result (λ r. (out-Command r).has_globals ≡ false) }
{
    let command = Command::new(alloc, "serve");
    let command = with_value(alloc, command, "keys")?;
    let command = with_value(alloc, command, "port")?;
    let command = with_value(alloc, command, "journal")?;
    let command = with_value(alloc, command, "nodes")?;
    let command = with_value(alloc, command, "joblimit")?;
    let command = with_value(alloc, command, "hardlimit")?;
    with_value(alloc, command, "workers")
}

/// One more subcommand.
fn with_subcommand<'a>(command: Command<'a>, sub: Command<'a>) -> Result<Command<'a>, AllocError>
    requires { (out-Command sub).has_globals ≡ false }
    ensures app { IfOk result (λ r. app_of r ≡ with_subcommand (app_of command.entry) (shape_of sub.entry)) }
    ensures local { IfOk result (λ r. (out-Command r).has_globals ≡ (out-Command command.entry).has_globals) }
{
    command.subcommand(sub)
}

fn program<'a>(alloc: Global) -> Command<'a>
    ensures app { app_of result ≡ bare }
    ensures local { (out-Command result).has_globals ≡ false }
{
    Command::new(alloc, "cluster_server")
        .disable_help_flag(true)
        .disable_help_subcommand(true)
}

/// The whole command line.
pub fn command_line<'a>(alloc: Global) -> Result<Command<'a>, AllocError>
    ensures { IfOk result (λ r. app_of r ≡ with_commands bare table) }
{
    let command = program(alloc);
    let command = with_subcommand(command, session_command(alloc)?)?;
    let command = with_subcommand(command, work_command(alloc)?)?;
    let command = with_subcommand(command, lone_command(alloc, "replay"))?;
    let command = with_subcommand(command, solve_command(alloc)?)?;
    let command = with_subcommand(command, lone_command(alloc, "verify"))?;
    let command = with_subcommand(command, lone_command(alloc, "limits"))?;
    let command = with_subcommand(command, load_command(alloc)?)?;
    with_subcommand(command, serve_command(alloc)?)
}
