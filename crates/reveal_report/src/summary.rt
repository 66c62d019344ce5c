// The summary of a reveal.
ghost use Rattle.std.specs.Prelude.{◌≡◌, ◌++◌, IfOk, OnOk, string_bytes};
ghost use Rattle.reveal_report.specs.RevealText.{digest_line, summary_of};

use crate::lines::{push_last_line, push_level_lines};
use crate::text::text_of;
use layer_walk::Revealed;
use sha2::{Digest, Sha256};
use star_io::NoMemory;
use std::alloc::{AllocError, Global};
use std::fmt::Write;

/// The lines of the levels, the line that counts, and the digest of the whole text of the reveal.
#[tactic(auto, unfolding(crate::specs::RevealText::summary_of))]
pub fn summary_of(alloc: Global, reveal: &Revealed) -> Result<Vec<u8>, NoMemory>
    ensures { IfOk result (λ text. text.items ≡ summary_of reveal.now) }
{
    let whole = text_of(alloc, reveal)?;
    let mut text = String::new(alloc);
    push_level_lines(&mut text, reveal.levels.as_slice())?;
    push_last_line(&mut text, reveal)?;
    push_digest_line(alloc, &mut text, whole.as_slice())?;
    Ok(text.into_bytes())
}

// Writes the SHA-256 of a whole text.
fn push_digest_line(alloc: Global, text: &mut String, whole: &[u8]) -> Result<(), AllocError>
    ensures { OnOk result (string_bytes text.new ≡ string_bytes text.old ++ digest_line whole.now) }
{
    let digest = hex::encode(alloc, Sha256::digest(whole))?;
    write!(text, "text={digest}\n")
}
