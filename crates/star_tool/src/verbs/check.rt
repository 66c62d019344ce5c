// The command `check`.
ghost use Rattle.std.specs.Prelude.{◌≤◌, IfOk, IfErr};
ghost use Rattle.command_words.specs.declared.command.Command.{Command};
ghost use Rattle.star_tool.specs.Run.{Makes, Reason};
ghost use Rattle.star_tool.specs.Seen.{Seen, seen, unseen};

use crate::check_text::CheckLines;
use crate::status::Status;
use star_io::{MAX_RECORDS, Source, feed};
use std::alloc::Global;

/// How the verb is written.
pub(crate) const USAGE: &str = "check";

/// The lines of the records of an input.
pub(crate) fn check_output<S: Source>(alloc: Global, input: &mut S) -> Result<Vec<u8>, Status>
    ensures output { (coins : Seen) →
        IfOk result (Makes Command.Check (seen S.left S.faults input.old input.new) coins) }
    ensures reason { IfErr result (Reason Command.Check (seen S.left S.faults input.old input.new)
        unseen) }
    ensures later { S.faults input.old ≤ S.faults input.new }
{
    let mut lines = CheckLines::new(alloc);
    feed(alloc, input, MAX_RECORDS, &mut lines)?;
    let text = lines.finish()?;
    Ok(text)
}
