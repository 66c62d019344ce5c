// The command `epochs`.
ghost use Rattle.std.specs.Prelude.{◌≤◌, IfOk, IfErr};
ghost use Rattle.command_words.specs.Workers.{AreWorkers};
ghost use Rattle.command_words.specs.declared.command.Command.{Command};
ghost use Rattle.star_tool.specs.Run.{Makes, Reason};
ghost use Rattle.star_tool.specs.Seen.{Seen, seen, unseen};

use crate::epochs_text::epochs_text;
use crate::status::Status;
use epoch_walk::EpochWalk;
use recovery_pool::Gate;
use star_io::{MAX_RECORDS, Source, feed};
use std::alloc::Global;
use std::thread::Threads;

/// How the verb is written.
pub(crate) const USAGE: &str = "epochs [--workers W]";

/// The text of what an input tells for each of its epochs. The groups of each level of an epoch are
/// opened by so many workers, and each passes the gate first.
pub(crate) fn epochs_output<R: Threads + Sync, S: Source, G: Gate>(
    rt: &R,
    alloc: Global,
    workers: u32,
    input: &mut S,
    gate: &G,
) -> Result<Vec<u8>, Status>
    requires { AreWorkers workers }
    ensures output { (coins : Seen) → IfOk result (Makes (Command.Epochs workers)
        (seen S.left S.faults input.old input.new) coins) }
    ensures reason { IfErr result (Reason (Command.Epochs workers)
        (seen S.left S.faults input.old input.new) unseen) }
    ensures later { S.faults input.old ≤ S.faults input.new }
{
    let mut walk = EpochWalk::new(alloc);
    feed(alloc, input, MAX_RECORDS, &mut walk)?;
    let told = walk.finish(rt, workers, gate)?;
    let text = epochs_text(alloc, &told)?;
    Ok(text)
}
