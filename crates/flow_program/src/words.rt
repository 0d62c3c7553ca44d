//! The words after the program's name.

ghost use Rattle.std.specs.Prelude.{◌≡◌, ◌<◌, ◌-◌, ℕ, None, IfOk, length};
ghost use Rattle.flow_program.specs.Words.{HasCounts, IsBadAt, asked, request, texts};
ghost use Rattle.flow_program.specs.Parsed.{Reads, Tests, nothing_given, parsed, parsed_from, parsed_learn};

use crate::line::{command_in, learn_in, learn_matches_in, matches_in};
use crate::task::{Task, modulus_of};
use crate::verb::{Met, Verb, is_file};
use std::alloc::{AllocError, Global};
use thiserror::Error;

/// What the program is asked to do. The number of workers is from 1 to 16, and 1 where the words don't say it.
#[derive(Debug, Drop)]
pub enum Command {
    /// Evaluates the main graph of the file at each of its points, modulo the first modulus, or the second one.
    Sample {
        file: String,
        workers: u32,
        second: bool,
    },
    /// Learns the graphs of the file.
    Learn {
        file: String,
    },
    /// Reconstructs the functions that the outputs of the file's main graph are, with or without a report.
    Reconstruct {
        file: String,
        workers: u32,
        report: bool,
    },
    /// Reconstructs the functions of the demo of size `n`, which is from 1 to 16.
    Demo {
        n: u32,
        workers: u32,
    },
}

impl Command {
    ghost use Rattle.flow_program.specs.Words.{IsCount, request};
    ghost use Rattle.flow_program.specs.Tasks.{task_of};

    /// What is to be done with the file, or with the demo.
    pub(crate) fn task(&self) -> Task
        ensures { result ≡ task_of (request self.now) }
    {
        match self {
            Command::Sample {
                file: _,
                workers: _,
                second,
            } => Task::Sample(modulus_of(*second)),
            Command::Learn { file: _ } => Task::Learn,
            Command::Reconstruct {
                file: _,
                workers: _,
                report,
            } => Task::Reconstruct { report: *report },
            Command::Demo { n, workers: _ } => Task::Demo(*n),
        }
    }

    /// How many workers are to do it. One learns.
    pub(crate) fn workers(&self) -> u32
        requires { HasCounts (request self.now) }
        ensures { IsCount result }
    {
        match self {
            Command::Sample {
                file: _,
                workers,
                second: _,
            } => *workers,
            Command::Learn { file: _ } => 1,
            Command::Reconstruct {
                file: _,
                workers,
                report: _,
            } => *workers,
            Command::Demo { n: _, workers } => *workers,
        }
    }
}

/// Why words ask for nothing.
#[derive(Debug, Drop, Error)]
pub enum WordsError {
    /// The words are in no command's grammar: the first `word` of them begin no words that are.
    #[error("bad words at {word}")]
    Bad { word: usize },
    #[error("no memory")]
    NoMemory,
}

impl From<AllocError> for WordsError {
    ghost use Rattle.flow_program.specs.declared.words.WordsError.TheVariants.{NoMemory};

    ghost from_gives = { λ _ e. e ≡ NoMemory };

    fn from(_error: AllocError) -> WordsError {
        WordsError::NoMemory
    }
}

/// Tests the words behind the name of a command that takes workers.
fn test_verb(verb: Verb, words: &[String]) -> Result<(), WordsError>
    requires { length words.now < usize.MAX - 2 }
    ensures { Tests result (parsed_from verb 2 nothing_given (texts words.now)) }
{
    let mut met = Met::nothing();
    for (index, word) in words.iter().enumerate() {
        let Some(next) = met.with_word(verb, word.as_str()) else {
            return Err(WordsError::Bad { word: index + 2 });
        };
        met = next;
    }
    if !met.is_whole() {
        return Err(WordsError::Bad {
            word: words.len() + 2,
        });
    }
    Ok(())
}

/// What the words behind the name of a command that takes workers ask for.
fn parse_verb(alloc: Global, verb: Verb, words: &[String]) -> Result<Command, WordsError>
    requires { length words.now < usize.MAX - 2 }
    ensures { Reads result (parsed_from verb 2 nothing_given (texts words.now)) }
{
    test_verb(verb, words)?;
    let Ok(matches) = matches_in(alloc, verb, words) else {
        return Err(WordsError::NoMemory);
    };
    Ok(command_in(alloc, verb, &matches)?)
}

/// Tests the words behind `learn`.
fn test_learn(words: &[String]) -> Result<(), WordsError>
    ensures { Tests result (parsed_learn (texts words.now)) }
{
    match words {
        [file, rest @ ..] if is_file(file.as_str()) => {
            if !rest.is_empty() {
                return Err(WordsError::Bad { word: 3 });
            }
            Ok(())
        }
        _ => Err(WordsError::Bad { word: 2 }),
    }
}

/// What the words behind `learn` ask for.
fn parse_learn(alloc: Global, words: &[String]) -> Result<Command, WordsError>
    ensures { Reads result (parsed_learn (texts words.now)) }
{
    test_learn(words)?;
    let Ok(matches) = learn_matches_in(alloc, words) else {
        return Err(WordsError::NoMemory);
    };
    Ok(learn_in(alloc, &matches)?)
}

/// What the words ask for, or the place of the first that doesn't fit, found by reading them one after another.
fn parse_words(alloc: Global, words: &[String]) -> Result<Command, WordsError>
    ensures { Reads result (parsed (texts words.now)) }
{
    let [name, rest @ ..] = words else {
        return Err(WordsError::Bad { word: 1 });
    };
    match name.as_str() {
        "sample" => parse_verb(alloc, Verb::Sample, rest),
        "learn" => parse_learn(alloc, rest),
        "reconstruct" => parse_verb(alloc, Verb::Reconstruct, rest),
        "demo" => parse_verb(alloc, Verb::Demo, rest),
        _ => Err(WordsError::Bad { word: 1 }),
    }
}

/// What the words ask for.
///
/// # Errors
/// `Bad` exactly where the grammar admits the words for nothing, with the place, counted from 1, of the first word up to which
/// no admitted words go.
pub fn read_words(alloc: Global, words: &[String]) -> Result<Command, WordsError>
    ensures asked { IfOk result (λ command. asked (texts words.now) ≡ Some (request command)) }
    ensures counts { IfOk result (λ command. HasCounts (request command)) }
    ensures bad { (k : ℕ) → result ≡ Err (WordsError.Bad k) → IsBadAt (texts words.now) k }
{
    parse_words(alloc, words)
}
