// The command `book`.
ghost use Rattle.std.specs.Prelude.{◌≤◌, IfOk, IfErr};
ghost use Rattle.command_words.specs.declared.command.Command.{Command};
ghost use Rattle.star_tool.specs.Run.{Makes, Reason};
ghost use Rattle.star_tool.specs.Seen.{Seen, seen, unseen};

use crate::feed::book_over;
use crate::status::Status;
use star_io::{MAX_RECORDS, Source};
use std::alloc::Global;

/// How the verb is written.
pub(crate) const USAGE: &str = "book --epoch E";

/// The book of the records of an input, for an epoch.
pub(crate) fn book_output<S: Source>(
    alloc: Global,
    epoch: u32,
    input: &mut S,
) -> Result<Vec<u8>, Status>
    ensures output { (coins : Seen) → IfOk result (Makes (Command.Book epoch)
        (seen S.left S.faults input.old input.new) coins) }
    ensures reason { IfErr result (Reason (Command.Book epoch)
        (seen S.left S.faults input.old input.new) unseen) }
    ensures later { S.faults input.old ≤ S.faults input.new }
{
    let book = book_over(alloc, epoch, input, MAX_RECORDS)?;
    let bytes = book.to_bytes()?;
    Ok(bytes)
}
