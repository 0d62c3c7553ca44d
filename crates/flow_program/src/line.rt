//! The words behind a command's name, read by `clap` where the grammar admits them.

ghost use Rattle.std.specs.Prelude.{◌≡◌, IfErr, IfOk, Some, false, is_some, true};
ghost use Rattle.clap.specs.Words.{app_of, first_of, found_of, kind_of, rows_of, rule_of};
ghost use Rattle.flow_program.specs.Words.{request, texts};
ghost use Rattle.flow_program.specs.Parsed.{IsAdmitted, nothing_given, parsed_from, parsed_learn};
ghost use Rattle.flow_program.specs.Lines as spec;
ghost use Rattle.flow_program.specs.Lines.{Gives, count_at, flag_at, wish_in};

use crate::verb::Verb;
use crate::words::Command;
use clap::error::ErrorKind;
use clap::{Arg, ArgAction, ArgMatches, value_parser};
use std::alloc::{AllocError, Global};

/// The number of workers, which is 1 where it isn't given.
fn workers_option<'a>(alloc: Global) -> Arg<'a>
    ensures rule { rule_of result ≡ spec.workers_rule }
    ensures local { result.global ≡ false }
{
    let counts = value_parser!(u32).range(1..=16);
    Arg::new(alloc, "workers")
        .long("workers")
        .value_parser(counts)
        .default_value("1")
}

/// An option of one word.
fn flag_option<'a>(alloc: Global, name: &'a str) -> Arg<'a>
    ensures rule { rule_of result ≡ spec.flag_rule name.entry.now }
    ensures local { result.global ≡ false }
{
    Arg::new(alloc, name).long(name).action(ArgAction::SetTrue)
}

/// The file.
fn file_argument<'a>(alloc: Global) -> Arg<'a>
    ensures rule { rule_of result ≡ spec.file_rule }
    ensures local { result.global ≡ false }
{
    Arg::new(alloc, "file").required(true)
}

/// The size of a demo.
fn size_argument<'a>(alloc: Global) -> Arg<'a>
    ensures rule { rule_of result ≡ spec.size_rule }
    ensures local { result.global ≡ false }
{
    let counts = value_parser!(u32).range(1..=16);
    Arg::new(alloc, "size").required(true).value_parser(counts)
}

/// A command of which nothing is said yet. No word asks for help.
fn plain_line<'a>(alloc: Global, name: &'a str) -> clap::Command<'a>
    ensures { app_of result ≡ spec.plain_app name.entry.now }
{
    clap::Command::new(alloc, name)
        .no_binary_name(true)
        .disable_help_flag(true)
}

/// What stands behind a command's name.
fn line_of<'a>(alloc: Global, verb: Verb) -> Result<clap::Command<'a>, AllocError>
    ensures { IfOk result (λ line. app_of line ≡ spec.line_app verb) }
{
    match verb {
        Verb::Sample => plain_line(alloc, "sample")
            .arg(workers_option(alloc))?
            .arg(flag_option(alloc, "second"))?
            .arg(file_argument(alloc)),
        Verb::Reconstruct => plain_line(alloc, "reconstruct")
            .arg(workers_option(alloc))?
            .arg(flag_option(alloc, "report"))?
            .arg(file_argument(alloc)),
        Verb::Demo => plain_line(alloc, "demo")
            .arg(workers_option(alloc))?
            .arg(size_argument(alloc)),
    }
}

/// What `clap` finds in words that are admitted. It fails only for want of memory.
pub(crate) fn matches_in<'a>(
    alloc: Global,
    verb: Verb,
    words: &'a [String],
) -> Result<ArgMatches<'a>, clap::Error>
    requires admitted { IsAdmitted (parsed_from verb 2 nothing_given (texts words.now)) }
    ensures found { IfOk result (λ matches. Gives (wish_in verb (rows_of (found_of matches))) (parsed_from verb 2 nothing_given (texts words.entry.now))) }
    ensures fault { IfErr result (λ error. kind_of error ≡ ErrorKind.OutOfMemory) }
{
    let line = line_of(alloc, verb)?;
    line.try_get_matches_from(words)
}

/// What `clap` finds behind `learn`.
pub(crate) fn learn_matches_in<'a>(
    alloc: Global,
    words: &'a [String],
) -> Result<ArgMatches<'a>, clap::Error>
    requires admitted { IsAdmitted (parsed_learn (texts words.now)) }
    ensures found { IfOk result (λ matches. Gives (spec.learn_in (rows_of (found_of matches))) (parsed_learn (texts words.entry.now))) }
    ensures fault { IfErr result (λ error. kind_of error ≡ ErrorKind.OutOfMemory) }
{
    let line = plain_line(alloc, "learn").arg(file_argument(alloc))?;
    line.try_get_matches_from(words)
}

/// A number from 1 to 16 that was found.
fn count_in(matches: &ArgMatches<'_>, id: &str) -> u32
    requires { is_some (count_at id.now (rows_of (found_of matches.now))) ≡ true }
    ensures { count_at id.now (rows_of (found_of matches.now)) ≡ Some result }
{
    matches.get_one::<u32>(id).unwrap()
}

/// Whether an option of one word was found.
fn flag_in(matches: &ArgMatches<'_>, id: &str) -> bool
    requires { is_some (flag_at id.now (rows_of (found_of matches.now))) ≡ true }
    ensures { flag_at id.now (rows_of (found_of matches.now)) ≡ Some result }
{
    matches.get_flag(id)
}

/// A text that was found.
fn text_in<'a>(matches: &ArgMatches<'a>, id: &str) -> &'a str
    requires { is_some (first_of id.now (rows_of (found_of matches.now))) ≡ true }
    ensures { first_of id.now (rows_of (found_of matches.now)) ≡ Some result.now }
{
    matches.get_str(id).unwrap()
}

/// What the command asks for with what was found.
pub(crate) fn command_in(
    alloc: Global,
    verb: Verb,
    matches: &ArgMatches<'_>,
) -> Result<Command, AllocError>
    requires { is_some (wish_in verb (rows_of (found_of matches.now))) ≡ true }
    ensures { IfOk result (λ command. wish_in verb (rows_of (found_of matches.now)) ≡ Some (request command)) }
{
    let workers = count_in(matches, "workers");
    match verb {
        Verb::Sample => Ok(Command::Sample {
            file: String::from_str(alloc, text_in(matches, "file"))?,
            workers,
            second: flag_in(matches, "second"),
        }),
        Verb::Reconstruct => Ok(Command::Reconstruct {
            file: String::from_str(alloc, text_in(matches, "file"))?,
            workers,
            report: flag_in(matches, "report"),
        }),
        Verb::Demo => Ok(Command::Demo {
            n: count_in(matches, "size"),
            workers,
        }),
    }
}

/// What `learn` asks for with what was found.
pub(crate) fn learn_in(alloc: Global, matches: &ArgMatches<'_>) -> Result<Command, AllocError>
    requires { is_some (spec.learn_in (rows_of (found_of matches.now))) ≡ true }
    ensures { IfOk result (λ command. spec.learn_in (rows_of (found_of matches.now)) ≡ Some (request command)) }
{
    let file = String::from_str(alloc, text_in(matches, "file"))?;
    Ok(Command::Learn { file })
}
