// The text of a reveal.
ghost use Rattle.std.specs.Prelude.{◌≡◌, IfOk};
ghost use Rattle.reveal_report.specs.RevealText.{text_of};

use crate::line::push_lines;
use crate::lines::{push_last_line, push_level_lines};
use layer_walk::Revealed;
use star_io::NoMemory;
use std::alloc::Global;

/// The lines of a reveal, each with its newline: the opened groups, the levels, the refusals, the
/// extra bytes, and a last line that counts.
#[tactic(auto, unfolding(crate::specs::RevealText::text_of))]
pub fn text_of(alloc: Global, reveal: &Revealed) -> Result<Vec<u8>, NoMemory>
    ensures { IfOk result (λ text. text.items ≡ text_of reveal.now) }
{
    let mut text = String::new(alloc);
    push_lines(&mut text, reveal.groups.as_slice())?;
    push_level_lines(&mut text, reveal.levels.as_slice())?;
    push_lines(&mut text, reveal.refusals.as_slice())?;
    push_lines(&mut text, reveal.aux.as_slice())?;
    push_last_line(&mut text, reveal)?;
    Ok(text.into_bytes())
}
