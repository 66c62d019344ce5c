// The command `expect`.
ghost use Rattle.std.specs.Prelude.{◌≤◌, IfOk, IfErr};
ghost use Rattle.command_words.specs.declared.command.Command.{Command};
ghost use Rattle.report_frame.specs.Thresholds.{AreThresholds};
ghost use Rattle.report_frame.specs.declared.version.Version.TheVariants.{One};
ghost use Rattle.star_tool.specs.Run.{Makes, Reason};
ghost use Rattle.star_tool.specs.Seen.{Seen, seen};

use crate::expect_text::expect_text;
use crate::status::Status;
use crate::verbs::make::MAX_TABLE_BYTES;
use client_table::read_table;
use command_words::{SEED_BYTES, Thresholds};
use star_io::{Source, read_bytes};
use std::alloc::Global;
use table_law::{expected, is_clear};

/// How the verb is written.
pub(crate) const USAGE: &str = "expect --epoch E --thresholds K,.. --seed HEX";

/// The prefixes of a table, whose bytes are the input, and whether it is clear.
pub(crate) fn expect_output<S: Source>(
    alloc: Global,
    epoch: u32,
    thresholds: &Thresholds,
    seed: &[u8; SEED_BYTES],
    input: &mut S,
) -> Result<Vec<u8>, Status>
    requires { AreThresholds One thresholds.now }
    ensures output { (coins : Seen) →
        IfOk result (Makes (Command.Expect epoch thresholds.now seed.now)
        (seen S.left S.faults input.old input.new) coins) }
    ensures reason { (coins : Seen) →
        IfErr result (Reason (Command.Expect epoch thresholds.now seed.now)
        (seen S.left S.faults input.old input.new) coins) }
    ensures later { S.faults input.old ≤ S.faults input.new }
{
    let thresholds = thresholds.as_slice();
    let bytes = read_bytes(alloc, input, MAX_TABLE_BYTES)?;
    let table = read_table(alloc, &bytes, thresholds.len())?;
    let prefixes = expected(alloc, &table, thresholds, epoch, seed)?;
    let clear = is_clear(alloc, &table, thresholds, epoch, seed)?;
    let text = expect_text(alloc, prefixes.as_slice(), clear)?;
    Ok(text)
}
