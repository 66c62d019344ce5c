// The command of the verb `gen`.
ghost use Rattle.std.specs.Prelude.{◌≡◌, IfSome};
ghost use Rattle.command_words.specs.Generate.{gen_of};
ghost use Rattle.command_words.specs.Words.{HasGoodOptions};

use crate::command::Command;
use crate::numbers::number_in;
use crate::options::Options;
use crate::workers::workers_of;

/// The most reports of a stream for trials.
pub const MAX_REPORTS: u32 = 65_536;

/// The most liars in a hundred reports.
pub const MAX_LIARS: u32 = 100;

/// The command of the options.
pub fn gen_of(options: &Options) -> Option<Command>
    ensures command { result ≡ gen_of options.now }
    ensures good { IfSome result HasGoodOptions }
{
    let number = number_in(options.value("number")?, 0, u32::MAX)?;
    let reports = number_in(options.value("reports")?, 1, MAX_REPORTS)?;
    let liars = number_in(options.value("liars")?, 0, MAX_LIARS)?;
    let workers = workers_of(options)?;
    Some(Command::Gen {
        number,
        reports,
        liars,
        workers,
    })
}
