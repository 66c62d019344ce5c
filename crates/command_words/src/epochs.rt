// The command of the verb `epochs`.
ghost use Rattle.std.specs.Prelude.{◌≡◌, IfSome};
ghost use Rattle.command_words.specs.Epochs.{epochs_of};
ghost use Rattle.command_words.specs.Words.{HasGoodOptions};

use crate::command::Command;
use crate::options::Options;
use crate::workers::workers_of;

/// The command of the options.
pub fn epochs_of(options: &Options) -> Option<Command>
    ensures command { result ≡ epochs_of options.now }
    ensures good { IfSome result HasGoodOptions }
{
    let workers = workers_of(options)?;
    Some(Command::Epochs { workers })
}
