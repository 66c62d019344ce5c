// Reading the points and the numbers of a certificate.
ghost use Rattle.std.specs.Prelude.{◌≡◌, ℕ, suc, ◌+◌, ◌*◌, ◌≤◌, ◌<◌, ◌^◌, List, [], ◌++◌, length, slice_index, drop, vec_capacity, IfOk, IfErr, Ok, Err, All};
ghost use Rattle.byte_format.specs.Format.{Format, Entry};
ghost use Rattle.shamir_limbs.specs.declared.share.Point.{Point};
ghost use Rattle.cert_audit.specs.Certificate.{points_layout, numbers_layout, entries_of_point, point_entries, number_entries};
ghost use Rattle.cert_audit.specs.Points.{point_of};
ghost use Rattle.byte_format.specs.Reading.{read};
ghost use Rattle.cert_audit.specs.Reading.{certs};
ghost use Rattle.cert_audit.specs.declared.kind.CertKind.{CertKind};

use crate::fault::CertFault;
use crate::fields::read_element;
use field61::{Fe, MODULUS};
use shamir_limbs::Point;

/// So many points, each with an x above that of the one before it. They are put into an empty list
/// that has room for them, and take 32 bytes each.
pub(crate) fn read_points(
    mut points: Vec<Point>,
    n: u32,
    bytes: &[u8],
    at: u64,
) -> Result<Vec<Point>, CertFault>
    requires empty { points.items ≡ [] }
    requires room { n ≤ vec_capacity points }
    requires place { at < 2 ^ 32 }
    ensures ok { IfOk result (λ made. (next : Format CertKind) (before : List Entry) →
        read certs (points_layout n 0 next) at before bytes.now
        ≡ read certs next (at + 32 * n) (before ++ point_entries made.items) (drop (32 * n) bytes.now)) }
    ensures fault { IfErr result (λ e. (next : Format CertKind) (before : List Entry) →
        read certs (points_layout n 0 next) at before bytes.now ≡ Err e) }
    ensures many { IfOk result (λ made. length made.items ≡ n) }
    ensures three { IfOk result (λ made. All (λ p. length p.y ≡ 3) made.items) }
    ensures long { IfOk result (λ _. 32 * n ≤ length bytes.now) }
{
    let mut rest = bytes;
    let mut above = Fe::ZERO;
    for i in 0..n {
        let (four, behind) = read_four(rest, at + 32 * i as u64, above.value())?;
        let point = point_of(&four);
        above = point.x;
        points.push_reserved(point);
        rest = behind;
    }
    Ok(points)
}

// The numbers of a point whose x is above a number.
fn read_four(bytes: &[u8], at: u64, above: u64) -> Result<([u64; 4], &[u8]), CertFault>
    requires above { above < MODULUS }
    requires place { at < 2 ^ 60 }
    ensures ok { IfOk result (λ x. (n : ℕ) (next : Format CertKind) (before : List Entry) →
        read certs (points_layout (suc n) above next) at before bytes.now
        ≡ read certs (points_layout n (point_of x.0).x next) (at + 32) (before
        ++ entries_of_point (point_of x.0)) x.1.now) }
    ensures fault { IfErr result (λ e. (n : ℕ) (next : Format CertKind) (before : List Entry) →
        read certs (points_layout (suc n) above next) at before bytes.now ≡ Err e) }
    ensures below { IfOk result (λ x. (i : ℕ) → slice_index x.0 i < MODULUS) }
    ensures long { IfOk result (λ _. 32 ≤ length bytes.now) }
    ensures rest { IfOk result (λ x. x.1.now ≡ drop 32 bytes.now) }
{
    let (x, rest) = read_element(bytes, at, above + 1)?;
    let (y0, rest) = read_element(rest, at + 8, 0)?;
    let (y1, rest) = read_element(rest, at + 16, 0)?;
    let (y2, rest) = read_element(rest, at + 24, 0)?;
    Ok(([x, y0, y1, y2], rest))
}

// The point of its four numbers.
fn point_of(numbers: &[u64; 4]) -> Point
    requires { (i : ℕ) → slice_index numbers.now i < MODULUS }
    ensures { result ≡ point_of numbers.now }
{
    let x = Fe::new(numbers[0]).unwrap();
    let y0 = Fe::new(numbers[1]).unwrap();
    let y1 = Fe::new(numbers[2]).unwrap();
    let y2 = Fe::new(numbers[3]).unwrap();
    Point { x, y: [y0, y1, y2] }
}

/// So many field numbers, with which a certificate ends. They are put into an empty list that has
/// room for them, and take 8 bytes each.
pub(crate) fn read_numbers(
    mut numbers: Vec<Fe>,
    n: u32,
    bytes: &[u8],
    at: u64,
) -> Result<Vec<Fe>, CertFault>
    requires empty { numbers.items ≡ [] }
    requires room { n ≤ vec_capacity numbers }
    requires place { at < 2 ^ 40 }
    ensures ok { IfOk result (λ made. (before : List Entry) →
        read certs (numbers_layout n) at before bytes.now
        ≡ Ok (before ++ number_entries made.items, at + 8 * n)) }
    ensures fault { IfErr result (λ e. (before : List Entry) →
        read certs (numbers_layout n) at before bytes.now ≡ Err e) }
{
    let mut rest = bytes;
    for i in 0..n {
        let (number, behind) = read_element(rest, at + 8 * i as u64, 0)?;
        numbers.push_reserved(Fe::new(number).unwrap());
        rest = behind;
    }
    Ok(numbers)
}
