// Paths as printed text.
ghost use Rattle.std.specs.Prelude.{◌≡◌, ◌++◌, OnOk, string_bytes};
ghost use Rattle.reveal_report.specs.Paths.{path_text, step_text, version_mark};

use crate::escape::push_escaped;
use layer_walk::{Path, Step};
use report_frame::Version;
use std::alloc::AllocError;
use std::fmt::Write;

pub(crate) fn push_path(text: &mut String, path: &Path) -> Result<(), AllocError>
    ensures { OnOk result (string_bytes text.new ≡ string_bytes text.old ++ path_text path.now) }
{
    if let Some((first, others)) = path.as_slice().split_first() {
        push_step(text, first)?;
        for step in others {
            text.push_str("/")?;
            push_step(text, step)?;
        }
    }
    Ok(())
}

/// Appends the text of a step: its value, escaped, its threshold, and its version if it isn't the
/// first.
pub fn push_step(text: &mut String, step: &Step) -> Result<(), AllocError>
    ensures { OnOk result (string_bytes text.new ≡ string_bytes text.old ++ step_text step.now) }
{
    push_escaped(text, step.value.as_slice())?;
    write!(text, "~{}", step.k)?;
    push_version(text, step.version)
}

// Names a version that isn't the first.
fn push_version(text: &mut String, version: Version) -> Result<(), AllocError>
    ensures { OnOk result (string_bytes text.new ≡ string_bytes text.old ++ version_mark version) }
{
    match version {
        Version::One => Ok(()),
        Version::Two => text.push_str("~2"),
    }
}
