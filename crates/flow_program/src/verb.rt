//! What stands behind the name of a command that takes workers.

ghost use Rattle.std.specs.Prelude.{◌≡◌};
ghost use Rattle.ratfun_text.specs.Bytes.{number_below};
ghost use Rattle.flow_program.specs.Words as spec;
ghost use Rattle.flow_program.specs.Parsed.{fits};

use ratfun_text::bytes::number;

/// A command that takes workers.
#[derive(Clone, Copy, Debug)]
pub(crate) enum Verb {
    Sample,
    Reconstruct,
    Demo,
}

/// A word names a file where it is a dash alone or begins with no dash.
pub(crate) fn is_file(word: &str) -> bool
    ensures { result ≡ spec.is_file word.now }
{
    word == "-" || !(word.is_empty() || word.starts_with("-"))
}

/// The number that the digits write, where it is at most 16.
fn number_up_to_sixteen(digits: &[u8]) -> Option<u32>
    ensures { result ≡ number_below 17 digits.now }
{
    let number = number(digits)?;
    if number > 16 {
        return None;
    }
    Some(number as u32)
}

/// The number from 1 to 16 that a word writes in decimal digits, with no zero in front.
pub(crate) fn count(word: &[u8]) -> Option<u32>
    ensures { result ≡ spec.count_of word.now }
{
    match word {
        [b'0', ..] => None,
        _ => number_up_to_sixteen(word),
    }
}

impl Verb {
    /// Whether the word is the command's option of one word.
    fn has_flag(self, word: &str) -> bool
        ensures { result ≡ spec.is_flag self word.now }
    {
        match self {
            Verb::Sample => word == "--second",
            Verb::Reconstruct => word == "--report",
            Verb::Demo => false,
        }
    }

    /// Whether the command may be asked of the word.
    fn fits(self, word: &str) -> bool
        ensures { result ≡ fits self word.now }
    {
        match self {
            Verb::Sample | Verb::Reconstruct => is_file(word),
            Verb::Demo => count(word.as_bytes()).is_some(),
        }
    }
}

/// What has been met of the number of workers.
#[derive(Clone, Copy, Debug)]
pub(crate) enum Stage {
    /// Nothing yet.
    Unsaid,
    /// The option, behind which the number is to come.
    Awaited,
    /// The number.
    Said,
}

/// Which words have been met behind a command's name.
#[derive(Clone, Copy, Debug)]
pub(crate) struct Met {
    /// The word that is no option.
    word: bool,
    /// The number of workers.
    workers: Stage,
    /// The command's option of one word.
    flag: bool,
}

impl Met {
    ghost use Rattle.flow_program.specs.Parsed.{is_whole, met_of, met_with, met_with_number, met_with_other, nothing_given};

    /// No word.
    pub(crate) fn nothing() -> Met
        ensures { result ≡ met_of nothing_given }
    {
        Met {
            word: false,
            workers: Stage::Unsaid,
            flag: false,
        }
    }

    /// One more word that is neither `--workers` nor the number behind it.
    fn with_other(self, verb: Verb, word: &str) -> Option<Met>
        ensures { result ≡ met_with_other verb self word.now }
    {
        if verb.has_flag(word) {
            if self.flag {
                return None;
            }
            return Some(Met { flag: true, ..self });
        }
        if verb.fits(word) && !self.word {
            return Some(Met { word: true, ..self });
        }
        None
    }

    /// The number behind `--workers`.
    fn with_number(self, number: &str) -> Option<Met>
        ensures { result ≡ met_with_number self number.now }
    {
        count(number.as_bytes())?;
        Some(Met {
            workers: Stage::Said,
            ..self
        })
    }

    /// One more word. None where no words that the grammar admits go on so.
    pub(crate) fn with_word(self, verb: Verb, word: &str) -> Option<Met>
        ensures { result ≡ met_with verb self.workers self word.now }
    {
        match self.workers {
            Stage::Awaited => self.with_number(word),
            Stage::Said if word == "--workers" => None,
            Stage::Unsaid if word == "--workers" => Some(Met {
                workers: Stage::Awaited,
                ..self
            }),
            _ => self.with_other(verb, word),
        }
    }

    /// Whether admitted words may end here.
    pub(crate) fn is_whole(self) -> bool
        ensures { result ≡ is_whole self }
    {
        self.word && !matches!(self.workers, Stage::Awaited)
    }
}
