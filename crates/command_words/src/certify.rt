// The command of the verb `certify`.
ghost use Rattle.std.specs.Prelude.{◌≡◌, IfSome};
ghost use Rattle.command_words.specs.Certify.{certify_of};
ghost use Rattle.command_words.specs.Words.{HasGoodOptions};

use crate::command::Command;
use crate::numbers::number_in;
use crate::options::Options;

/// The command of the options.
pub fn certify_of(options: &Options) -> Option<Command>
    ensures command { result ≡ certify_of options.now }
    ensures good { IfSome result HasGoodOptions }
{
    let epoch = number_in(options.value("epoch")?, 0, u32::MAX)?;
    Some(Command::Certify { epoch })
}
