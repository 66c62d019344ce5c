// The text of `expect`.
ghost use Rattle.std.specs.Prelude.{◌≡◌, IfOk};
ghost use Rattle.star_tool.specs.ExpectText.{expect_line, expect_text_of};

use layer_walk::OpenedGroup;
use reveal_report::open_lines;
use star_io::NoMemory;
use std::alloc::Global;
use std::fmt::Write;

/// The lines of `expect`: one for each prefix, and a last one that counts them and says whether the
/// table is clear.
pub fn expect_text(
    alloc: Global,
    prefixes: &[OpenedGroup],
    clear: bool,
) -> Result<Vec<u8>, NoMemory>
    ensures { IfOk result (λ text. text.items ≡ expect_text_of prefixes.now clear) }
{
    let mut text = open_lines(alloc, prefixes)?;
    let last = expect_line(alloc, prefixes.len(), clear)?;
    text.extend_from_slice(&last)?;
    Ok(text)
}

fn expect_line(alloc: Global, prefixes: usize, clear: bool) -> Result<Vec<u8>, NoMemory>
    ensures { IfOk result (λ line. line.items ≡ expect_line prefixes clear) }
{
    let mut line = String::new(alloc);
    let answer = if clear { "yes" } else { "no" };
    write!(line, "prefixes={prefixes} clear={answer}\n")?;
    Ok(line.into_bytes())
}
