// The options of a verb, read by `clap`.
ghost use Rattle.std.specs.Prelude.{◌≡◌, Some, None, IfOk, Err, option_copied};
ghost use Rattle.std.specs.List.{list_all};
ghost use Rattle.clap.specs.Words.{app_of};
ghost use Rattle.command_words.specs.Options.{options_of, texts_of, value_of};
ghost use Rattle.command_words.specs.Parse.{is_option_word, verb_app};

use crate::command::WordsError;
use clap::error::ErrorKind;
use clap::{Arg, ArgMatches, Command};
use std::alloc::{AllocError, Global};
use std::marker::Model;

/// The options of a verb: what value each name was given.
#[derive(Drop)]
pub struct Options<'a> {
    matches: ArgMatches<'a>,
}

impl<'a> Model for Options<'a> {
    ghost use Rattle.std.specs.Prelude.{◌≡◌, List};
    ghost use Rattle.clap.specs.Words.{first_value, found_of};
    ghost use Rattle.command_words.specs.Parse.{pairs_in};
    ghost use Rattle.command_words.specs.Options.{Text, Pair, value_of};

    ghost Value = { List Pair };

    ghost view = { λ o. pairs_in (found_of o.matches) };

    ghost invariant = { λ o. (name : Text)
        → first_value (found_of o.matches) name ≡ value_of (pairs_in (found_of o.matches)) name };
}

impl<'a> Options<'a> {
    /// The options of a verb that has these names, in the words after the verb.
    pub fn read(
        alloc: Global,
        verb: &'a str,
        names: &[&'a str],
        words: &'a [&'a str],
    ) -> Result<Options<'a>, WordsError>
        ensures options { IfOk result (λ options.
            options_of (texts_of names.now) (texts_of words.entry.now) ≡ Some options) }
        ensures usage { result ≡ Err WordsError.Usage
            → options_of (texts_of names.now) (texts_of words.entry.now) ≡ None }
    {
        if !are_option_words(words) {
            return Err(WordsError::Usage);
        }
        let command = verb_command(alloc, verb, names)?;
        match command.try_get_matches_from(words) {
            Ok(matches) => Ok(Options { matches }),
            Err(error) => match error.kind() {
                ErrorKind::OutOfMemory => Err(WordsError::NoMemory),
                _ => Err(WordsError::Usage),
            },
        }
    }

    /// The value that an option was given.
    pub fn value(&self, name: &str) -> Option<&'a str>
        ensures { option_copied result ≡ value_of self.now name.now }
    {
        self.matches.get_str(name)
    }
}

// The command of a verb whose options each take one text.
fn verb_command<'a>(
    alloc: Global,
    verb: &'a str,
    names: &[&'a str],
) -> Result<Command<'a>, AllocError>
    ensures { IfOk result (λ command. app_of command
        ≡ verb_app verb.entry.now (texts_of names.now)) }
{
    let mut command = Command::new(alloc, verb)
        .no_binary_name(true)
        .disable_help_flag(true);
    for name in names {
        command = command.arg(Arg::new(alloc, name).long(name))?;
    }
    Ok(command)
}

// Each word may stand among options.
fn are_option_words(words: &[&str]) -> bool
    ensures { result ≡ list_all (λ word. is_option_word word.now) words.now }
{
    words.iter().all(|word| is_option_word(word.as_bytes()))
}

// The word may stand among options: it doesn't begin with a hyphen, or it has a name after two.
fn is_option_word(word: &[u8]) -> bool
    ensures { result ≡ is_option_word word.now }
{
    match word {
        [b'-', b'-', _, ..] => true,
        [b'-', ..] => false,
        _ => true,
    }
}
