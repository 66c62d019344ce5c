// The text of `selftest`.
ghost use Rattle.std.specs.Prelude.{◌≡◌, ◌++◌, ◌+◌, IfOk, OnOk, string_bytes};
ghost use Rattle.star_tool.specs.SelfTestText.{self_test_text_of, ok_line, ok_count_line};

use star_io::NoMemory;
use std::alloc::{AllocError, Global};
use std::fmt::Write;

/// The lines of `selftest`: one for each vector, in order, and a last one that counts them.
pub fn self_test_text(alloc: Global, count: u8) -> Result<Vec<u8>, NoMemory>
    ensures { IfOk result (λ text. text.items ≡ self_test_text_of count) }
{
    let mut text = String::new(alloc);
    for number in 0..count {
        push_ok_line(&mut text, number + 1)?;
    }
    push_ok_count_line(&mut text, count)?;
    Ok(text.into_bytes())
}

fn push_ok_line(text: &mut String, number: u8) -> Result<(), AllocError>
    ensures { OnOk result (string_bytes text.new ≡ string_bytes text.old ++ ok_line number) }
{
    write!(text, "vector {number} ok\n")
}

fn push_ok_count_line(text: &mut String, count: u8) -> Result<(), AllocError>
    ensures { OnOk result (string_bytes text.new ≡ string_bytes text.old ++ ok_count_line count) }
{
    write!(text, "vectors={count} ok={count}\n")
}
