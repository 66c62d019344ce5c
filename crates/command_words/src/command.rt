// What the words of the command line ask for.
ghost use Rattle.std.specs.Prelude.{◌≡◌, ◌∷◌, None, Some, Err, IfOk};
ghost use Rattle.command_words.specs.Options.{texts_of};
ghost use Rattle.command_words.specs.Words.{command_with, command_of, HasGoodOptions};
ghost use Rattle.command_words.specs.declared.command.WordsError.TheVariants.{NoMemory};

use crate::options::Options;
use crate::thresholds::Thresholds;
use crate::verb::Verb;
use crate::words::Words;
use report_frame::Version;
use std::alloc::{AllocError, Global};

/// What the program is asked to do.
#[derive(Debug, Drop, PartialEq, Eq)]
pub enum Command {
    /// Reads a stream of records, and prints a line for each.
    Check,
    /// Reads a stream of records, and prints what it reveals for an epoch.
    Reveal {
        epoch: u32,
        /// How many threads open groups. The number changes nothing in what is printed.
        workers: u32,
    },
    /// Reads a table, and prints the stream of the reports of its rows.
    Make {
        epoch: u32,
        /// The version of all reports.
        version: Version,
        /// One threshold for each column.
        thresholds: Thresholds,
        /// The coins of all clients are derived from it.
        seed: Option<[u8; 32]>,
    },
    /// Makes a stream for trials, and prints a summary of what it reveals.
    Gen {
        /// It and the next two alone determine the stream.
        number: u32,
        reports: u32,
        /// How many in a hundred have a wrong share.
        liars: u32,
        /// As those of `Reveal`.
        workers: u32,
    },
    /// Computes the vectors of the self test, and prints a line for each.
    SelfTest,
    /// Reads a table, and prints the groups that the stream of its reports opens, of version 1,
    /// if these don't conflict with each other.
    Expect {
        epoch: u32,
        /// One threshold for each column.
        thresholds: Thresholds,
        /// The coins of all clients are derived from it.
        seed: [u8; 32],
    },
    /// Reads a stream of records, and writes their book for an epoch.
    Book {
        epoch: u32,
    },
    /// Reads books of an epoch, and writes their sum.
    Merge {
        epoch: u32,
    },
    /// Reads books of an epoch, and prints what the records of their sum reveal.
    OpenBook {
        epoch: u32,
        /// As those of `Reveal`.
        workers: u32,
    },
    /// Reads a stream of records, and writes the certificates of what it opens for an epoch.
    Certify {
        epoch: u32,
    },
    /// Reads certificates, and prints a line for each.
    Audit,
    /// Reads a stream of records, and prints what it reveals for each epoch.
    Epochs {
        /// As those of `Reveal`.
        workers: u32,
    },
}

/// Why words give no command.
#[derive(Clone, Copy, Debug, PartialEq, Eq)]
pub enum WordsError {
    /// They are faulty.
    Usage,
    NoMemory,
}

impl From<AllocError> for WordsError {
    ghost from_gives = { λ _ e. e ≡ NoMemory };

    fn from(_: AllocError) -> Self {
        WordsError::NoMemory
    }
}

/// The command that the words give.
pub fn words_of(alloc: Global, words: &Words) -> Result<Command, WordsError>
    ensures command { IfOk result (λ command. command_of words.now ≡ Some command) }
    ensures good { IfOk result HasGoodOptions }
    ensures usage { result ≡ Err WordsError.Usage → command_of words.now ≡ None }
{
    let texts = words.texts(alloc)?;
    match texts.split_first() {
        Some((verb, others)) => read_verb(alloc, verb, others),
        None => Err(WordsError::Usage),
    }
}

// The command of a verb and the words after it.
fn read_verb(alloc: Global, word: &str, words: &[&str]) -> Result<Command, WordsError>
    ensures command { IfOk result (λ command.
        command_of (word.now ∷ texts_of words.now) ≡ Some command) }
    ensures good { IfOk result HasGoodOptions }
    ensures usage { result ≡ Err WordsError.Usage
        → command_of (word.now ∷ texts_of words.now) ≡ None }
{
    match Verb::of(word) {
        Some(verb) => read_options(alloc, verb, word, words),
        None => Err(WordsError::Usage),
    }
}

// The command of a verb by the options after it.
fn read_options(
    alloc: Global,
    verb: Verb,
    word: &str,
    words: &[&str],
) -> Result<Command, WordsError>
    ensures command { IfOk result (λ command.
        command_with verb (texts_of words.now) ≡ Some command) }
    ensures good { IfOk result HasGoodOptions }
    ensures usage { result ≡ Err WordsError.Usage
        → command_with verb (texts_of words.now) ≡ None }
{
    let options = Options::read(alloc, word, verb.names(), words)?;
    verb.command(&options).ok_or(WordsError::Usage)
}
