// Numbers of the field, decoded and spelled.
ghost use Rattle.std.specs.Prelude.{◌≡◌, ◌<◌, ◌≤◌, [], length, unwrap_or, IfOk};
ghost use Rattle.field61.specs.declared.TheConstants.{MODULUS};
ghost use Rattle.poly61.specs.Poly.{AreDistinct};
ghost use Rattle.gao_decoder.specs.Search.{decoding_of};
ghost use Rattle.star_vectors.specs.Vectors.{filled_up, spelled};

use field61::Fe;
use gao_decoder::{Scratch, decode};
use poly61::Poly;
use star_io::NoMemory;
use std::alloc::Global;

/// The field element of a number.
pub(crate) fn element(n: u64) -> Fe
    requires { n < MODULUS }
    ensures { result ≡ n }
{
    Fe::new(n).unwrap()
}

/// The numbers, each as 8 big-endian bytes, filled up with zeros.
pub(crate) fn spelled(numbers: &[Fe]) -> [u8; 32]
    requires { length numbers.now ≤ 4 }
    ensures { result ≡ filled_up (spelled numbers.now) }
{
    let mut bytes = [0; 32];
    for i in 0..numbers.len() {
        bytes[8 * i..8 * i + 8].copy_from_slice(&numbers[i].value().to_be_bytes());
    }
    bytes
}

/// The coefficients of the line that is decoded from the points, spelled: zeros if there is none.
pub(crate) fn decoded(alloc: Global, xs: &[Fe], ys: &[Fe]) -> Result<[u8; 32], NoMemory>
    requires distinct { AreDistinct xs.now }
    requires pairs { length xs.now ≡ length ys.now }
    requires threshold { 2 ≤ length xs.now }
    ensures { IfOk result (λ bytes. bytes
        ≡ filled_up (spelled (unwrap_or (decoding_of xs.now ys.now 2) []))) }
{
    let mut scratch = Scratch::new(alloc, xs.len())?;
    let mut line = Poly::with_room(alloc, 2)?;
    if !decode(&mut scratch, xs, ys, 2, &mut line) {
        return Ok([0; 32]);
    }
    Ok(spelled(&[line.coefficient(0), line.coefficient(1)]))
}
