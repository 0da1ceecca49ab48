//! The words of a command line, read by `clap`.

ghost use Rattle.std.specs.Prelude.{◌≡◌, ◌∷◌, [], Some, codes, drop, fold, map, string_bytes, true};
ghost use Rattle.std.specs.List.{list_all};
ghost use Rattle.std.specs.Option.{option_copied};
ghost use Rattle.clap.specs.Matches.{found_of};
ghost use Rattle.clap.specs.Walk.{rows_of};
ghost use Rattle.command_words.specs.Given.{Given, Line};
ghost use Rattle.command_words.specs.Table.{line, subcommand, table, load_line, serve_line, session_line, solve_line, work_line};
ghost use Rattle.command_words.specs.Commands.{is_clean, IsParsedAs, kept};
ghost use Rattle.command_words.specs.Asked.{Answers, asked, is_set_as, meant};

use crate::asked::{Words, WordsFault};
use crate::command::command_line;
use crate::values::{load_words, serve_words, session_words, sizes_given, solve_words, work_words};
use base_names::OrMemory;
use clap::error::ErrorKind;
use clap::{ArgMatches, Command};
use std::alloc::Global;

/// Whether a word begins with no hyphen, or with two and more bytes behind them.
fn is_clean(word: &str) -> bool
    ensures { result ≡ is_clean word.now }
{
    let word = word.as_bytes();
    match word {
        [] => true,
        [first, ..] => *first != b'-' || (word.starts_with(b"--") && 2 < word.len()),
    }
}

fn are_clean(words: &[String]) -> bool
    ensures { result ≡ list_all (λ word. is_clean (string_bytes word)) words.now }
{
    words.iter().all(|word| is_clean(word.as_str()))
}

/// The words after the program's name, if each of them may be given to `clap`.
fn has_clean_words(words: &[String]) -> bool
    ensures { result ≡ list_all (λ word. is_clean (string_bytes word)) (drop 1 words.now) }
{
    match words {
        [] => true,
        [_, rest @ ..] => are_clean(rest),
    }
}

fn parsed<'a>(alloc: Global, words: &'a Vec<String>) -> Result<ArgMatches<'a>, OrMemory<WordsFault>>
    ensures { IsParsedAs result (map string_bytes words.now.items) }
{
    if !has_clean_words(words.as_slice()) {
        return Err(OrMemory::Fault(WordsFault::Refused));
    }
    let command = command_line(alloc)?;
    match command.try_get_matches_from(words.as_slice()) {
        Ok(matches) => Ok(matches),
        Err(error) => match error.kind() {
            ErrorKind::OutOfMemory => Err(OrMemory::NoMemory),
            _ => Err(OrMemory::Fault(WordsFault::Refused)),
        },
    }
}

fn is_set(word: Option<&str>) -> bool
    ensures { result ≡ is_set_as (option_copied word.entry) }
{
    match word {
        Some(word) => word == "true",
        None => false,
    }
}

fn session_of<'a>(alloc: Global, matches: &ArgMatches<'a>) -> Result<Words, OrMemory<WordsFault>>
    ensures { (given : Given) → rows_of (found_of matches.now) ≡ kept session_line given → Answers result (meant (codes "session") given) }
{
    let admin = is_set(matches.get_str("admin"));
    session_words(
        alloc,
        matches.get_str("NAME"),
        admin,
        matches.get_str("journal"),
    )
}

fn work_of<'a>(alloc: Global, matches: &ArgMatches<'a>) -> Result<Words, OrMemory<WordsFault>>
    ensures { (given : Given) → rows_of (found_of matches.now) ≡ kept work_line given → Answers result (meant (codes "work") given) }
{
    work_words(alloc, matches.get_str("journal"))
}

fn solve_of<'a>(matches: &ArgMatches<'a>) -> Result<Words, OrMemory<WordsFault>>
    ensures { (given : Given) → rows_of (found_of matches.now) ≡ kept solve_line given → Answers result (meant (codes "solve") given) }
{
    solve_words(
        matches.get_str("iterations"),
        matches.get_str("nodes"),
        matches.get_str("work"),
    )
}

fn load_of<'a>(matches: &ArgMatches<'a>) -> Result<Words, OrMemory<WordsFault>>
    ensures { (given : Given) → rows_of (found_of matches.now) ≡ kept load_line given → Answers result (meant (codes "load") given) }
{
    load_words(matches.get_str("SEED"))
}

fn serve_of<'a>(alloc: Global, matches: &ArgMatches<'a>) -> Result<Words, OrMemory<WordsFault>>
    ensures { (given : Given) → rows_of (found_of matches.now) ≡ kept serve_line given → Answers result (meant (codes "serve") given) }
{
    let sizes = sizes_given(
        matches.get_str("port"),
        matches.get_str("nodes"),
        matches.get_str("joblimit"),
        matches.get_str("hardlimit"),
        matches.get_str("workers"),
    );
    serve_words(
        alloc,
        matches.get_str("keys"),
        matches.get_str("journal"),
        sizes,
    )
}

/// What these words ask for. The first is the program's name.
pub fn read_words(alloc: Global, words: &Vec<String>) -> Result<Words, OrMemory<WordsFault>>
    ensures { Answers result (asked (map string_bytes words.now.items)) }
{
    let matches = parsed(alloc, words)?;
    match matches.subcommand() {
        None => Err(OrMemory::Fault(WordsFault::Refused)),
        Some((name, inner)) => words_of(alloc, name, inner),
    }
}

/// What the words behind a subcommand ask for.
fn words_of<'a>(
    alloc: Global,
    name: &str,
    matches: &ArgMatches<'a>,
) -> Result<Words, OrMemory<WordsFault>>
    ensures { (given : Given) → (l : Line) → subcommand table name.now ≡ Some (name.now, l) → rows_of (found_of matches.now) ≡ kept l given → Answers result (meant name.now given) }
{
    if name == "session" {
        session_of(alloc, matches)
    } else if name == "work" {
        work_of(alloc, matches)
    } else if name == "replay" {
        Ok(Words::Replay)
    } else if name == "solve" {
        solve_of(matches)
    } else if name == "verify" {
        Ok(Words::Verify)
    } else if name == "limits" {
        Ok(Words::Limits)
    } else if name == "load" {
        load_of(matches)
    } else if name == "serve" {
        serve_of(alloc, matches)
    } else {
        Err(OrMemory::Fault(WordsFault::Refused))
    }
}
