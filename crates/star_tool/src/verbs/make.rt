// The command `make`.
ghost use Rattle.std.specs.Prelude.{◌≡◌, ◌⊎◌, ◌≤◌, IfOk, IfErr};
ghost use Rattle.command_words.specs.declared.command.Command.{Command};
ghost use Rattle.report_frame.specs.Thresholds.{AreThresholds};
ghost use Rattle.star_tool.specs.Run.{Makes, Reason, Draws, ending};
ghost use Rattle.star_tool.specs.Seen.{seen};

mod rows;

use crate::coins::seed_or_coins;
use crate::status::Status;
use command_words::{SEED_BYTES, Thresholds};
use report_frame::Version;
use rows::Rows;
use star_io::{Source, read_bytes};
use std::alloc::Global;

/// How the verb is written.
pub(crate) const USAGE: &str = "make --epoch E --thresholds K,.. [--seed HEX] [--version V]";

/// The most bytes of a table.
pub const MAX_TABLE_BYTES: usize = 134_217_728;

/// The stream of the reports of a table, whose bytes are the input.
pub(crate) fn make_output<S: Source, C: Source>(
    alloc: Global,
    epoch: u32,
    version: Version,
    thresholds: &Thresholds,
    given: Option<[u8; SEED_BYTES]>,
    input: &mut S,
    coins: &mut C,
) -> Result<Vec<u8>, Status>
    requires { AreThresholds version thresholds.now }
    ensures output { IfOk result (Makes (Command.Make epoch version thresholds.now given)
        (seen S.left S.faults input.old input.new) (seen C.left C.faults coins.old coins.new)) }
    ensures reason { IfErr result (Reason (Command.Make epoch version thresholds.now given)
        (seen S.left S.faults input.old input.new) (seen C.left C.faults coins.old coins.new)) }
    ensures coins { (coins.new ≡ coins.old)
        ⊎ Draws (Command.Make epoch version thresholds.now given)
        (seen S.left S.faults input.old input.new) (seen C.left C.faults coins.old coins.new)
        (ending result) }
    ensures input_later { S.faults input.old ≤ S.faults input.new }
    ensures coins_later { C.faults coins.old ≤ C.faults coins.new }
{
    let thresholds = thresholds.as_slice();
    let bytes = read_bytes(alloc, input, MAX_TABLE_BYTES)?;
    let rows = Rows::read(alloc, version, &bytes, thresholds.len())?;
    let seed = seed_or_coins(given, coins)?;
    let text = rows.stream(alloc, thresholds, epoch, &seed)?;
    Ok(text)
}

#[cfg(test)]
mod tests;
