// The command `gen`.
ghost use Rattle.std.specs.Prelude.{IfOk, IfErr};
ghost use Rattle.command_words.specs.Generate.{IsTrial};
ghost use Rattle.command_words.specs.Workers.{AreWorkers};
ghost use Rattle.command_words.specs.declared.command.Command.{Command};
ghost use Rattle.star_tool.specs.Run.{Makes, Reason};
ghost use Rattle.star_tool.specs.Seen.{unseen};

use crate::feed::walk_over;
use crate::status::Status;
use crate::stream_source::StreamSource;
use nest_client::gen_text;
use recovery_pool::Gate;
use reveal_report::summary_of;
use star_io::MAX_RECORDS;
use std::alloc::Global;
use std::thread::Threads;

/// How the verb is written.
pub(crate) const USAGE: &str = "gen --number N --reports R --liars L [--workers W]";

/// The epoch of the reports of a stream for trials.
pub(crate) const TRIAL_EPOCH: u32 = 1;

/// The summary of what a stream for trials tells. The groups of each level are opened by so many
/// workers, and each passes the gate first.
pub(crate) fn gen_output<R: Threads + Sync, G: Gate>(
    rt: &R,
    alloc: Global,
    number: u32,
    reports: u32,
    liars: u32,
    workers: u32,
    gate: &G,
) -> Result<Vec<u8>, Status>
    requires trial { IsTrial reports liars }
    requires workers { AreWorkers workers }
    ensures output { IfOk result (Makes (Command.Gen number reports liars workers) unseen unseen) }
    ensures reason { IfErr result (Reason (Command.Gen number reports liars workers) unseen unseen) }
{
    let stream = gen_text(alloc, number, reports, liars)?;
    let walk = walk_over(
        alloc,
        TRIAL_EPOCH,
        &mut StreamSource::new(&stream),
        MAX_RECORDS,
    )?;
    let revealed = walk.finish(rt, workers, gate)?;
    let text = summary_of(alloc, &revealed)?;
    Ok(text)
}
