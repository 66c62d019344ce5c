// Reading on to the end of an input.
ghost use Rattle.std.specs.Prelude.{◌≡◌, ◌+◌, ◌<◌, ◌≤◌, ◌^◌, ℕ, List, [], Some, true, false, length, drop, IfOk};
ghost use Rattle.star_io.specs.Faults.{HasCause};

use star_io::{Failed, Source, fill};

// How many bytes are dropped at once.
const SCRAP: usize = 65536;

/// Whether at most `room` bytes are left. They are dropped, and of others one.
pub(crate) fn ends_within<S: Source>(input: &mut S, room: u64) -> Result<bool, Failed>
    requires { room < 2 ^ 63 }
    ensures end { IfOk result (λ ends. ends ≡ true → (bytes : List ℕ) →
        S.left input.old ≡ Some bytes →
        (length bytes ≤ room) × (S.left input.new ≡ Some [])) }
    ensures more { IfOk result (λ ends. ends ≡ false → (bytes : List ℕ) →
        S.left input.old ≡ Some bytes →
        (room < length bytes) × (S.left input.new ≡ Some (drop (room + 1) bytes))) }
    ensures cause { HasCause (S.faults input.old) (S.faults input.new) result }
{
    let mut scrap = [0u8; SCRAP];
    let mut dropped = 0;
    while dropped <= room {
        let wanted = (room - dropped + 1).min(SCRAP as u64) as usize;
        let piece = &mut scrap[..wanted];
        let count = fill(input, piece)?;
        let most = piece.len();
        if count < most {
            return Ok(true);
        }
        dropped += count as u64;
    }
    Ok(false)
}
