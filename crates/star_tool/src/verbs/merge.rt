// The command `merge`.
ghost use Rattle.std.specs.Prelude.{◌≤◌, IfOk, IfErr};
ghost use Rattle.command_words.specs.declared.command.Command.{Command};
ghost use Rattle.star_tool.specs.Run.{Makes, Reason};
ghost use Rattle.star_tool.specs.Seen.{Seen, seen, unseen};

use crate::status::Status;
use book_merge::read_sum;
use star_io::Source;
use std::alloc::Global;

/// How the verb is written.
pub(crate) const USAGE: &str = "merge --epoch E";

/// The sum of the books that an input has, one behind the other, for an epoch.
pub(crate) fn merge_output<S: Source>(
    alloc: Global,
    epoch: u32,
    input: &mut S,
) -> Result<Vec<u8>, Status>
    ensures output { (coins : Seen) → IfOk result (Makes (Command.Merge epoch)
        (seen S.left S.faults input.old input.new) coins) }
    ensures reason { IfErr result (Reason (Command.Merge epoch)
        (seen S.left S.faults input.old input.new) unseen) }
    ensures later { S.faults input.old ≤ S.faults input.new }
{
    let sum = read_sum(alloc, epoch, input)?;
    let bytes = sum.to_bytes()?;
    Ok(bytes)
}
