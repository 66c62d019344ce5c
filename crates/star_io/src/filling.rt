// Many takes as one.
ghost use Rattle.std.specs.Prelude.{◌≡◌, ◌<◌, ◌≤◌, ℕ, List, length, take, IfOk, OnErr};
ghost use Rattle.std.specs.Io.{ReadsAtMost};
ghost use Rattle.std.specs.Io.KnownBytes.{Consumes, IsAtEnd};
ghost use Rattle.star_io.specs.Faults.{HasCause};

use crate::failed::Failed;
use crate::source::Source;

/// Fills a slice, or as much of it as there are bytes for, and says how much.
///
/// An `Err` doesn't say how much was taken before the take that failed: it is at most the slice.
pub fn fill<S: Source>(source: &mut S, into: &mut [u8]) -> Result<usize, Failed>
    ensures bound { ReadsAtMost result into.new }
    ensures bytes { IfOk result (λ n.
        Consumes (S.left source.old) (S.left source.new) (take n into.new)) }
    ensures short { IfOk result (λ n. n < length into.new → IsAtEnd (S.left source.new)) }
    ensures failed { OnErr result ((front : List ℕ) × (length front ≤ length into.new)
        × Consumes (S.left source.old) (S.left source.new) front) }
    ensures cause { HasCause (S.faults source.old) (S.faults source.new) result }
{
    let mut filled = 0;
    while filled < into.len() {
        let count = source.take(&mut into[filled..])?;
        if count == 0 {
            return Ok(filled);
        }
        filled += count;
    }
    Ok(filled)
}

// How many bytes are dropped by one take.
const SCRAP: u32 = 4096;

// Drops so many bytes, or as many as there are, and says how many.
pub(crate) fn skip<S: Source>(source: &mut S, count: u32) -> Result<u32, Failed>
    ensures bound { IfOk result (λ n. n ≤ count) }
    ensures bytes { IfOk result (λ n. (dropped : List ℕ) × (length dropped ≡ n)
        × Consumes (S.left source.old) (S.left source.new) dropped) }
    ensures short { IfOk result (λ n. n < count → IsAtEnd (S.left source.new)) }
    ensures cause { HasCause (S.faults source.old) (S.faults source.new) result }
{
    let mut scrap = [0u8; SCRAP as usize];
    let mut skipped = 0;
    while skipped < count {
        let room = (count - skipped).min(SCRAP) as usize;
        let got = source.take(&mut scrap[..room])?;
        if got == 0 {
            return Ok(skipped);
        }
        skipped += got as u32;
    }
    Ok(skipped)
}
