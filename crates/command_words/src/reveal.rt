// The command of the verb `reveal`.
ghost use Rattle.std.specs.Prelude.{◌≡◌, IfSome};
ghost use Rattle.command_words.specs.Reveal.{reveal_of};
ghost use Rattle.command_words.specs.Words.{HasGoodOptions};

use crate::command::Command;
use crate::numbers::number_in;
use crate::options::Options;
use crate::workers::workers_of;

/// The command of the options.
pub fn reveal_of(options: &Options) -> Option<Command>
    ensures command { result ≡ reveal_of options.now }
    ensures good { IfSome result HasGoodOptions }
{
    let epoch = number_in(options.value("epoch")?, 0, u32::MAX)?;
    let workers = workers_of(options)?;
    Some(Command::Reveal { epoch, workers })
}
