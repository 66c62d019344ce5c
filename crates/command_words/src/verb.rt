// The verbs: the word of each, the names of its options, and the command that its options give.
ghost use Rattle.std.specs.Prelude.{◌≡◌, IfSome};
ghost use Rattle.command_words.specs.Options.{texts_of};
ghost use Rattle.command_words.specs.Verb.{verb_of, names_of, command_by};
ghost use Rattle.command_words.specs.Words.{HasGoodOptions};

use crate::books::{book_of, merge_of, open_book_of};
use crate::certify::certify_of;
use crate::command::Command;
use crate::epochs::epochs_of;
use crate::expect::expect_of;
use crate::generate::gen_of;
use crate::make::make_of;
use crate::options::Options;
use crate::reveal::reveal_of;

/// What the first word asks for.
#[derive(Clone, Copy, Debug, PartialEq, Eq)]
pub enum Verb {
    Check,
    Reveal,
    Make,
    Gen,
    SelfTest,
    Expect,
    Book,
    Merge,
    OpenBook,
    Certify,
    Audit,
    Epochs,
}

// The names of the options of a verb that stands alone.
const NO_NAMES: [&str; 0] = [];

// The names of the options of `reveal`.
const REVEAL_NAMES: [&str; 2] = ["epoch", "workers"];

// The names of the options of `make`.
const MAKE_NAMES: [&str; 4] = ["epoch", "version", "thresholds", "seed"];

// The names of the options of `gen`.
const GEN_NAMES: [&str; 4] = ["number", "reports", "liars", "workers"];

// The names of the options of `expect`.
const EXPECT_NAMES: [&str; 3] = ["epoch", "thresholds", "seed"];
// The names of the options of `book`, and those of `merge`.
const BOOK_NAMES: [&str; 1] = ["epoch"];

// The names of the options of `openbook`.
const OPEN_BOOK_NAMES: [&str; 2] = ["epoch", "workers"];
// The names of the options of `certify`.
const CERTIFY_NAMES: [&str; 1] = ["epoch"];
// The names of the options of `epochs`.
const EPOCHS_NAMES: [&str; 1] = ["workers"];

impl Verb {
    /// The verb of a word.
    pub fn of(word: &str) -> Option<Verb>
        ensures { result ≡ verb_of word.now }
    {
        match word {
            "check" => Some(Verb::Check),
            "reveal" => Some(Verb::Reveal),
            "make" => Some(Verb::Make),
            "gen" => Some(Verb::Gen),
            "selftest" => Some(Verb::SelfTest),
            "expect" => Some(Verb::Expect),
            "book" => Some(Verb::Book),
            "merge" => Some(Verb::Merge),
            "openbook" => Some(Verb::OpenBook),
            "certify" => Some(Verb::Certify),
            "audit" => Some(Verb::Audit),
            "epochs" => Some(Verb::Epochs),
            _ => None,
        }
    }

    /// The names of its options.
    pub fn names(self) -> &'static [&'static str]
        ensures { texts_of result.now ≡ names_of self }
    {
        match self {
            Verb::Check => &NO_NAMES,
            Verb::Reveal => &REVEAL_NAMES,
            Verb::Make => &MAKE_NAMES,
            Verb::Gen => &GEN_NAMES,
            Verb::SelfTest => &NO_NAMES,
            Verb::Expect => &EXPECT_NAMES,
            Verb::Book => &BOOK_NAMES,
            Verb::Merge => &BOOK_NAMES,
            Verb::OpenBook => &OPEN_BOOK_NAMES,
            Verb::Certify => &CERTIFY_NAMES,
            Verb::Audit => &NO_NAMES,
            Verb::Epochs => &EPOCHS_NAMES,
        }
    }

    /// The command that its options give.
    pub fn command(self, options: &Options) -> Option<Command>
        ensures command { result ≡ command_by self options.now }
        ensures good { IfSome result HasGoodOptions }
    {
        match self {
            Verb::Check => Some(Command::Check),
            Verb::Reveal => reveal_of(options),
            Verb::Make => make_of(options),
            Verb::Gen => gen_of(options),
            Verb::SelfTest => Some(Command::SelfTest),
            Verb::Expect => expect_of(options),
            Verb::Book => book_of(options),
            Verb::Merge => merge_of(options),
            Verb::OpenBook => open_book_of(options),
            Verb::Certify => certify_of(options),
            Verb::Audit => Some(Command::Audit),
            Verb::Epochs => epochs_of(options),
        }
    }
}
