// The text of `epochs`.
ghost use Rattle.std.specs.Prelude.{◌≡◌, ◌++◌, IfOk, OnOk, string_bytes};
ghost use Rattle.std.specs.List.{flat_map};
ghost use Rattle.star_tool.specs.EpochsText.{section_text, stray_line, epochs_line, epochs_text_of};

use epoch_walk::{EpochPart, EpochsOut, Stray};
use reveal_report::{name_of_why, text_of};
use star_io::NoMemory;
use std::alloc::{AllocError, Global};
use std::fmt::Write;

/// The sections of the epochs, in ascending order, the line of each record that belongs to no
/// epoch, and a last line that counts.
#[tactic(auto, unfolding(crate::specs::EpochsText::epochs_text_of))]
pub fn epochs_text(alloc: Global, epochs: &EpochsOut) -> Result<Vec<u8>, NoMemory>
    ensures { IfOk result (λ text. text.items ≡ epochs_text_of epochs.now) }
{
    let mut text = Vec::new(alloc);
    push_sections(alloc, &mut text, epochs.parts.as_slice())?;
    let mut tail = String::new(alloc);
    push_stray_lines(&mut tail, epochs.strays.as_slice())?;
    push_epochs_line(&mut tail, epochs)?;
    text.extend_from_slice(tail.as_bytes())?;
    Ok(text)
}

// Writes the section of each epoch, in order.
fn push_sections(alloc: Global, text: &mut Vec<u8>, parts: &[EpochPart]) -> Result<(), NoMemory>
    ensures { OnOk result (text.new.items ≡ text.old.items ++ flat_map section_text parts.now) }
{
    for part in parts {
        push_section(alloc, text, part)?;
    }
    Ok(())
}

fn push_section(alloc: Global, text: &mut Vec<u8>, part: &EpochPart) -> Result<(), NoMemory>
    ensures { OnOk result (text.new.items ≡ text.old.items ++ section_text part.now) }
{
    let epoch = part.epoch;
    let line = format!(in alloc; "epoch {epoch}\n")?;
    let reveal = text_of(alloc, &part.reveal)?;
    text.extend_from_slice(line.as_bytes())?;
    text.extend_from_slice(&reveal)?;
    Ok(())
}

// Writes the line of each stray, in order.
fn push_stray_lines(text: &mut String, strays: &[Stray]) -> Result<(), AllocError>
    ensures { OnOk result (string_bytes text.new
        ≡ string_bytes text.old ++ flat_map stray_line strays.now) }
{
    for stray in strays {
        push_stray_line(text, stray)?;
    }
    Ok(())
}

fn push_stray_line(text: &mut String, stray: &Stray) -> Result<(), AllocError>
    ensures { OnOk result (string_bytes text.new ≡ string_bytes text.old ++ stray_line stray.now) }
{
    write!(text, "refused {} {}\n", stray.index, name_of_why(stray.why))
}

fn push_epochs_line(text: &mut String, epochs: &EpochsOut) -> Result<(), AllocError>
    ensures { OnOk result (string_bytes text.new
        ≡ string_bytes text.old ++ epochs_line epochs.now) }
{
    let parts = epochs.parts.len();
    let strays = epochs.strays.len();
    write!(
        text,
        "records={} epochs={parts} refused={strays}\n",
        epochs.records
    )
}
