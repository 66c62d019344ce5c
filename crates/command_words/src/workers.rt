// The number of workers of the command line.
ghost use Rattle.std.specs.Prelude.{◌≡◌, IfSome};
ghost use Rattle.command_words.specs.Workers.{workers_of, AreWorkers};

use crate::numbers::number_in;
use crate::options::Options;
use recovery_pool::MAX_WORKERS;

/// How many workers there are where the words name no number.
pub const DEFAULT_WORKERS: u32 = 4;

/// The number of workers of the options.
pub fn workers_of(options: &Options) -> Option<u32>
    ensures workers { result ≡ workers_of options.now }
    ensures good { IfSome result AreWorkers }
{
    match options.value("workers") {
        Some(text) => number_in(text, 1, MAX_WORKERS),
        None => Some(DEFAULT_WORKERS),
    }
}
