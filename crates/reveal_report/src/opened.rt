// The lines of opened groups by themselves.
ghost use Rattle.std.specs.Prelude.{◌≡◌, IfOk};
ghost use Rattle.std.specs.List.{flat_map};
ghost use Rattle.reveal_report.specs.RevealText.{open_line};

use crate::line::push_lines;
use layer_walk::OpenedGroup;
use star_io::NoMemory;
use std::alloc::Global;

/// The line of each of these groups, in their order, as the text of a reveal has it.
pub fn open_lines(alloc: Global, groups: &[OpenedGroup]) -> Result<Vec<u8>, NoMemory>
    ensures { IfOk result (λ text. text.items ≡ flat_map open_line groups.now) }
{
    let mut text = String::new(alloc);
    push_lines(&mut text, groups)?;
    Ok(text.into_bytes())
}
