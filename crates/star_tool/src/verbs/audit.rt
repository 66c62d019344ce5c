// The command `audit`.
ghost use Rattle.std.specs.Prelude.{◌≤◌, IfOk, IfErr};
ghost use Rattle.command_words.specs.declared.command.Command.{Command};
ghost use Rattle.star_tool.specs.Run.{Makes, Reason};
ghost use Rattle.star_tool.specs.Seen.{Seen, seen, unseen};

use crate::audit_text::audit_text;
use crate::status::Status;
use star_io::{Source, read_bytes};
use std::alloc::Global;

/// How the verb is written.
pub(crate) const USAGE: &str = "audit";

/// The most bytes of certificates.
pub const MAX_CERTS_BYTES: usize = 536_870_912;

/// The lines of the certificates of an input.
pub(crate) fn audit_output<S: Source>(alloc: Global, input: &mut S) -> Result<Vec<u8>, Status>
    ensures output { (coins : Seen) →
        IfOk result (Makes Command.Audit (seen S.left S.faults input.old input.new) coins) }
    ensures reason { IfErr result (Reason Command.Audit (seen S.left S.faults input.old input.new)
        unseen) }
    ensures later { S.faults input.old ≤ S.faults input.new }
{
    let bytes = read_bytes(alloc, input, MAX_CERTS_BYTES)?;
    let text = audit_text(alloc, &bytes)?;
    Ok(text)
}
