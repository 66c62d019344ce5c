// Reading the bytes of an input to their end.
ghost use Rattle.std.specs.Prelude.{◌≡◌, ◌≢◌, ◌+◌, ◌<◌, ◌≤◌, ◌^◌, ℕ, List, [], Some, Err, length, drop, vec_len, IfOk, IsErrOf};
ghost use Rattle.std.specs.Io.KnownBytes.{IsAtEnd};
ghost use Rattle.star_io.specs.Faults.{Rose};
ghost use Rattle.star_io.specs.Reading.{TakesPiece};

use crate::filling::fill;
use crate::input_error::InputError;
use crate::source::Source;
use std::alloc::Global;

/// For how many bytes there is room at first.
const FIRST_ROOM: usize = 65536;

/// All the bytes of a source, which may be `limit` at most.
///
/// `TooMany` where there are more: then one more than `limit` is taken, and nothing after it.
pub fn read_bytes<S: Source>(
    alloc: Global,
    input: &mut S,
    limit: usize,
) -> Result<Vec<u8>, InputError>
    requires { limit < usize.MAX }
    ensures bytes { IfOk result (λ found. (bytes : List ℕ) → S.left input.old ≡ Some bytes →
        (found.items ≡ bytes) × (S.left input.new ≡ Some [])) }
    ensures few { IfOk result (λ found. length found.items ≤ limit) }
    ensures too_many { IsErrOf result InputError.TooMany →
        (bytes : List ℕ) → S.left input.old ≡ Some bytes →
        (limit < length bytes) × (S.left input.new ≡ Some (drop (limit + 1) bytes)) }
    ensures read { IsErrOf result InputError.Read →
        Rose (S.faults input.old) (S.faults input.new) }
    ensures later { S.faults input.old ≤ S.faults input.new }
{
    let mut bytes = Vec::new(alloc);
    while bytes.len() <= limit {
        let most = limit - bytes.len() + 1;
        let room = bytes.len().max(FIRST_ROOM).min(most);
        if take_piece(input, room, &mut bytes)? < room {
            return Ok(bytes);
        }
    }
    Err(InputError::TooMany)
}

// Takes as many bytes as there is room for, puts them last, and says how many. They are fewer
// only at the end.
fn take_piece<S: Source>(
    input: &mut S,
    room: usize,
    bytes: &mut Vec<u8>,
) -> Result<usize, InputError>
    requires { vec_len bytes.old + room < 2 ^ 64 }
    ensures taken { IfOk result (λ count.
        TakesPiece count (S.left input.old) (S.left input.new) bytes.old.items bytes.new.items) }
    ensures most { IfOk result (λ count. count ≤ room) }
    ensures short { IfOk result (λ count. count < room → IsAtEnd (S.left input.new)) }
    ensures causes { result ≢ Err InputError.TooMany }
    ensures read { IsErrOf result InputError.Read →
        Rose (S.faults input.old) (S.faults input.new) }
    ensures later { S.faults input.old ≤ S.faults input.new }
{
    let filled = bytes.len();
    bytes.resize(filled + room, 0)?;
    let count = fill(input, &mut bytes.as_mut_slice()[filled..])?;
    bytes.truncate(filled + count);
    Ok(count)
}
