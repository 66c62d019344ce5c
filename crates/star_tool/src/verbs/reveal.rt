// The command `reveal`.
ghost use Rattle.std.specs.Prelude.{◌≤◌, IfOk, IfErr};
ghost use Rattle.command_words.specs.Workers.{AreWorkers};
ghost use Rattle.command_words.specs.declared.command.Command.{Command};
ghost use Rattle.star_tool.specs.Run.{Makes, Reason};
ghost use Rattle.star_tool.specs.Seen.{Seen, seen, unseen};

use crate::feed::walk_over;
use crate::status::Status;
use recovery_pool::Gate;
use reveal_report::text_of;
use star_io::{MAX_RECORDS, Source};
use std::alloc::Global;
use std::thread::Threads;

/// How the verb is written.
pub(crate) const USAGE: &str = "reveal --epoch E [--workers W]";

/// The text of what an input tells for an epoch. The groups of each level are opened by so many
/// workers, and each passes the gate first.
pub(crate) fn reveal_output<R: Threads + Sync, S: Source, G: Gate>(
    rt: &R,
    alloc: Global,
    epoch: u32,
    workers: u32,
    input: &mut S,
    gate: &G,
) -> Result<Vec<u8>, Status>
    requires { AreWorkers workers }
    ensures output { (coins : Seen) → IfOk result (Makes (Command.Reveal epoch workers)
        (seen S.left S.faults input.old input.new) coins) }
    ensures reason { IfErr result (Reason (Command.Reveal epoch workers)
        (seen S.left S.faults input.old input.new) unseen) }
    ensures later { S.faults input.old ≤ S.faults input.new }
{
    let walk = walk_over(alloc, epoch, input, MAX_RECORDS)?;
    let revealed = walk.finish(rt, workers, gate)?;
    let text = text_of(alloc, &revealed)?;
    Ok(text)
}

#[cfg(test)]
mod tests_cities;
