// The command `selftest`.
ghost use Rattle.std.specs.Prelude.{IfOk, IfErr};
ghost use Rattle.command_words.specs.declared.command.Command.{Command};
ghost use Rattle.star_tool.specs.Run.{Makes, Reason};
ghost use Rattle.star_tool.specs.Seen.{unseen};

use crate::self_test_text::self_test_text;
use crate::status::Status;
use star_vectors::self_test;
use std::alloc::Global;

/// How the verb is written.
pub(crate) const USAGE: &str = "selftest";

/// The lines of the self test.
pub(crate) fn self_test_output(alloc: Global) -> Result<Vec<u8>, Status>
    ensures output { IfOk result (Makes Command.SelfTest unseen unseen) }
    ensures reason { IfErr result (Reason Command.SelfTest unseen unseen) }
{
    let passed = self_test(alloc)?;
    let text = self_test_text(alloc, passed.count)?;
    Ok(text)
}
