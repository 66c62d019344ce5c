// The commands of the verbs `book`, `merge` and `openbook`.
ghost use Rattle.std.specs.Prelude.{◌≡◌, IfSome};
ghost use Rattle.command_words.specs.Books.{book_of, merge_of, open_book_of, epoch_of};
ghost use Rattle.command_words.specs.Words.{HasGoodOptions};

use crate::command::Command;
use crate::numbers::number_in;
use crate::options::Options;
use crate::workers::workers_of;

/// The command `book` of the options.
pub fn book_of(options: &Options) -> Option<Command>
    ensures command { result ≡ book_of options.now }
    ensures good { IfSome result HasGoodOptions }
{
    let epoch = epoch_of(options)?;
    Some(Command::Book { epoch })
}

/// The command `merge` of the options.
pub fn merge_of(options: &Options) -> Option<Command>
    ensures command { result ≡ merge_of options.now }
    ensures good { IfSome result HasGoodOptions }
{
    let epoch = epoch_of(options)?;
    Some(Command::Merge { epoch })
}

/// The command `openbook` of the options.
pub fn open_book_of(options: &Options) -> Option<Command>
    ensures command { result ≡ open_book_of options.now }
    ensures good { IfSome result HasGoodOptions }
{
    let epoch = epoch_of(options)?;
    let workers = workers_of(options)?;
    Some(Command::OpenBook { epoch, workers })
}

// The epoch of the options.
fn epoch_of(options: &Options) -> Option<u32>
    ensures { result ≡ epoch_of options.now }
{
    number_in(options.value("epoch")?, 0, u32::MAX)
}
