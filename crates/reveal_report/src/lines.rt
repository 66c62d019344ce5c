// The lines of the levels, and the last line.
ghost use Rattle.std.specs.Prelude.{◌≡◌, ◌++◌, OnOk, string_bytes};
ghost use Rattle.reveal_report.specs.RevealText.{level_line, level_lines, last_line};

use layer_walk::{LevelCount, Revealed};
use std::alloc::AllocError;
use std::fmt::Write;

// Writes the line of each level, counted from 0.
pub(crate) fn push_level_lines(text: &mut String, levels: &[LevelCount]) -> Result<(), AllocError>
    ensures { OnOk result (string_bytes text.new
        ≡ string_bytes text.old ++ level_lines levels.now) }
{
    for (number, level) in levels.iter().enumerate() {
        push_level_line(text, number, level)?;
    }
    Ok(())
}

fn push_level_line(text: &mut String, number: usize, level: &LevelCount) -> Result<(), AllocError>
    ensures { OnOk result (string_bytes text.new
        ≡ string_bytes text.old ++ level_line number level.now) }
{
    write!(
        text,
        "level {number} opened={} few={}",
        level.opened, level.few
    )?;
    write!(
        text,
        " noline={} badvalue={}\n",
        level.no_line, level.bad_value
    )
}

// Writes how many records, rows and refusals there are.
pub(crate) fn push_last_line(text: &mut String, reveal: &Revealed) -> Result<(), AllocError>
    ensures { OnOk result (string_bytes text.new ≡ string_bytes text.old ++ last_line reveal.now) }
{
    let refused = reveal.refusals.len();
    write!(
        text,
        "records={} rows={} refused={refused}\n",
        reveal.records, reveal.rows
    )
}
