// The names of refusals, and where a report is refused.
ghost use Rattle.std.specs.Prelude.{◌≡◌, ◌++◌, OnOk, string_bytes};
ghost use Rattle.reveal_report.specs.Names.{stage_text, why_name};

use layer_walk::{Stage, Why};
use std::alloc::AllocError;
use std::fmt::Write;

/// The name under which a refusal is printed.
pub fn name_of_why(why: Why) -> &'static str
    ensures { result.now ≡ why_name why }
{
    match why {
        Why::CutLength => "CutLength",
        Why::CutRecord => "CutRecord",
        Why::Frame(kind) => kind.name(),
        Why::WrongEpoch => "WrongEpoch",
        Why::WrongLevel => "WrongLevel",
        Why::WrongVersion => "WrongVersion",
        Why::Seal => "Seal",
        Why::BodyKind => "BodyKind",
        Why::BodyTail => "BodyTail",
    }
}

pub(crate) fn push_stage(text: &mut String, stage: Stage) -> Result<(), AllocError>
    ensures { OnOk result (string_bytes text.new ≡ string_bytes text.old ++ stage_text stage) }
{
    match stage {
        Stage::Outer => text.push_str("outer"),
        Stage::Layer(level) => write!(text, "{level}"),
    }
}
