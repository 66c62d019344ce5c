// The command of the verb `make`.
ghost use Rattle.std.specs.Prelude.{◌≡◌, IfSome};
ghost use Rattle.command_words.specs.Make.{make_of};
ghost use Rattle.command_words.specs.Words.{HasGoodOptions};

use crate::command::Command;
use crate::numbers::number_in;
use crate::options::Options;
use crate::seed::seed_of;
use crate::thresholds::thresholds_of;
use crate::version::version_in;
use report_frame::Version;

/// The command of the options.
pub fn make_of(options: &Options) -> Option<Command>
    ensures command { result ≡ make_of options.now }
    ensures good { IfSome result HasGoodOptions }
{
    let epoch = number_in(options.value("epoch")?, 0, u32::MAX)?;
    let version = match options.value("version") {
        Some(text) => version_in(text)?,
        None => Version::One,
    };
    let thresholds = thresholds_of(version, options.value("thresholds")?)?;
    let seed = match options.value("seed") {
        Some(text) => Some(seed_of(text)?),
        None => None,
    };
    Some(Command::Make {
        epoch,
        version,
        thresholds,
        seed,
    })
}
