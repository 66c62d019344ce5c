// The command of the verb `expect`.
ghost use Rattle.std.specs.Prelude.{◌≡◌, IfSome};
ghost use Rattle.command_words.specs.Expect.{expect_of};
ghost use Rattle.command_words.specs.Words.{HasGoodOptions};

use crate::command::Command;
use crate::numbers::number_in;
use crate::options::Options;
use crate::seed::seed_of;
use crate::thresholds::thresholds_of;
use report_frame::Version;

/// The command of the options.
pub fn expect_of(options: &Options) -> Option<Command>
    ensures command { result ≡ expect_of options.now }
    ensures good { IfSome result HasGoodOptions }
{
    let epoch = number_in(options.value("epoch")?, 0, u32::MAX)?;
    let thresholds = thresholds_of(Version::One, options.value("thresholds")?)?;
    let seed = seed_of(options.value("seed")?)?;
    Some(Command::Expect {
        epoch,
        thresholds,
        seed,
    })
}
