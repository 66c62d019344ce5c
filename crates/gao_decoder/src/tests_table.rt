// Tables of points, decoded.
ghost use Rattle.std.specs.Prelude.{◌≡◌, ◌<◌, ◌+◌, ◌^◌, ℕ, length, slice_index, IfOk};

use crate::{Scratch, decode, decode_short};
use field61::Fe;
use poly61::Poly;
use star_io::NoMemory;
use std::alloc::Global;
use std::test::Fail;

// The points 1, 2, .. n.
pub(crate) fn points(alloc: Global, n: usize) -> Result<Vec<Fe>, NoMemory>
    requires { n < 2 ^ 32 }
    ensures length { IfOk result (λ xs. length xs.items ≡ n) }
    ensures places { IfOk result (λ xs. (i : ℕ) → i < n → slice_index xs.items i ≡ i + 1) }
{
    let mut xs = Vec::new(alloc);
    for i in 0..n {
        xs.push(Fe::new(i as u64 + 1).unwrap_or(Fe::ZERO))?;
    }
    Ok(xs)
}

// The values at the points of the polynomial with the coefficients s, s^2, .. s^k. The first of
// them are wrong: the value at x is off by x.
fn values(alloc: Global, xs: &[Fe], s: Fe, k: usize, wrong: usize) -> Result<Vec<Fe>, NoMemory>
    ensures { IfOk result (λ ys. length ys.items ≡ length xs.now) }
{
    let mut f = Poly::with_room(alloc, k)?;
    'coefficients: for i in 0..k {
        f.set_coefficient(i, s.pow(i as u64 + 1));
    }
    let mut ys = Vec::new(alloc);
    'values: for i in 0..xs.len() {
        let off = if i < wrong { xs[i] } else { Fe::ZERO };
        ys.push(f.value_at(xs[i]).add(off))?;
    }
    Ok(ys)
}

// The value at 1000 of what is decoded, where something is.
fn decoded_at_1000(alloc: Global, xs: &[Fe], ys: &[Fe], k: usize) -> Result<Option<u64>, Fail>
    requires places { (i : ℕ) → i < length xs.now → slice_index xs.now i ≡ i + 1 }
    requires pairs { length xs.now ≡ length ys.now }
{
    if k == 0 || xs.len() < k || xs.len() > 4096 {
        return Err("a threshold".into());
    }
    let mut scratch = Scratch::new(alloc, xs.len())?;
    let mut out = Poly::with_room(alloc, k)?;
    let far = Fe::new(1000).ok_or("a point")?;
    if decode(&mut scratch, xs, ys, k, &mut out) {
        Ok(Some(out.value_at(far).value()))
    } else {
        Ok(None)
    }
}

// 0 at the first points, and 1 at the others.
fn halves(alloc: Global, xs: &[Fe], zeros: usize) -> Result<Vec<Fe>, NoMemory>
    ensures { IfOk result (λ ys. length ys.items ≡ length xs.now) }
{
    let mut ys = Vec::new(alloc);
    'halves: for i in 0..xs.len() {
        ys.push(if i < zeros { Fe::ZERO } else { Fe::ONE })?;
    }
    Ok(ys)
}

// These numbers as elements, 0 for what is none.
fn elements(alloc: Global, numbers: &[u64]) -> Result<Vec<Fe>, NoMemory>
    ensures { IfOk result (λ ys. length ys.items ≡ length numbers.now) }
{
    let mut ys = Vec::new(alloc);
    'elements: for i in 0..numbers.len() {
        ys.push(Fe::new(numbers[i]).unwrap_or(Fe::ZERO))?;
    }
    Ok(ys)
}

// The values of 2x + 3 at 1 to 4 with one wrong, with two wrong, and of 0.
#[test]
fn four_points_of_a_line(rt: HostRuntime) -> Result<(), Fail> {
    let alloc = rt.alloc();
    let xs = points(alloc, 4)?;
    let rows: [([u64; 4], Option<u64>); 4] = [
        ([5, 7, 9, 100], Some(2003)),
        ([100, 7, 9, 11], Some(2003)),
        ([100, 7, 100, 11], None),
        ([0, 0, 0, 0], Some(0)),
    ];
    for (numbers, wanted) in rows {
        let ys = elements(alloc, &numbers)?;
        assert_eq!(rt; decoded_at_1000(alloc, &xs, &ys, 2)?, wanted);
    }
    Ok(())
}

// Whether the first k points alone are enough.
fn decodes_short(alloc: Global, xs: &[Fe], ys: &[Fe], k: usize) -> Result<bool, Fail>
    requires places { (i : ℕ) → i < length xs.now → slice_index xs.now i ≡ i + 1 }
    requires pairs { length xs.now ≡ length ys.now }
{
    if k == 0 || xs.len() < k || xs.len() > 4096 {
        return Err("a threshold".into());
    }
    let mut scratch = Scratch::new(alloc, xs.len())?;
    let mut out = Poly::with_room(alloc, k)?;
    Ok(decode_short(&mut scratch, xs, ys, k, &mut out))
}

// A wrong value behind the first two points, and one among them.
#[test]
fn the_first_points_alone(rt: HostRuntime) -> Result<(), Fail> {
    let alloc = rt.alloc();
    let xs = points(alloc, 4)?;
    for (numbers, wanted) in [([5, 7, 9, 100], true), ([100, 7, 9, 11], false)] {
        let ys = elements(alloc, &numbers)?;
        assert_eq!(rt; decodes_short(alloc, &xs, &ys, 2)?, wanted);
    }
    Ok(())
}

// 60 of 81 points on a constant are one too few for k = 40.
#[test]
fn two_halves_of_81_points(rt: HostRuntime) -> Result<(), Fail> {
    let alloc = rt.alloc();
    let xs = points(alloc, 81)?;
    for (zeros, wanted) in [(60, None), (61, Some(0))] {
        let ys = halves(alloc, &xs, zeros)?;
        assert_eq!(rt; decoded_at_1000(alloc, &xs, &ys, 40)?, wanted);
    }
    Ok(())
}

// Each row has n, k, s, how many values are wrong, and what another program decodes: at most (n -
// k) / 2 wrong values leave the polynomial, and one more mostly leaves none.
#[test]
fn agrees_with_another_decoder(rt: HostRuntime) -> Result<(), Fail> {
    let alloc = rt.alloc();
    let rows: [(usize, usize, u64, usize, Option<u64>); 15] = [
        (1, 1, 1813958876109625917, 1, Some(1813958876109625918)),
        (2, 2, 1958445007408918067, 1, Some(822463168577394069)),
        (5, 2, 754994510660104116, 1, Some(834265010981128793)),
        (5, 2, 2087779486172724548, 2, None),
        (9, 4, 172957044493265669, 2, Some(223249622816159064)),
        (9, 4, 288408334270100155, 3, None),
        (16, 16, 1338923554295890777, 1, Some(2115155845403705696)),
        (20, 3, 1442013250695765649, 8, Some(1838238642945338578)),
        (20, 3, 1571009245898103753, 9, None),
        (33, 10, 1194079899727422296, 11, Some(23098057014001592)),
        (33, 10, 1940698164616680116, 12, None),
        (60, 1, 1762656144624790218, 29, Some(1762656144624790218)),
        (60, 20, 2088373770252280344, 20, Some(607196093073597797)),
        (60, 20, 616936008805116809, 21, None),
        (60, 59, 1939596239447182916, 1, None),
    ];
    for (n, k, s, wrong, wanted) in rows {
        if n > 60 {
            return Err("too many points".into());
        }
        let xs = points(alloc, n)?;
        let ys = values(alloc, &xs, Fe::new(s).ok_or("an element")?, k, wrong)?;
        assert_eq!(rt;
            decoded_at_1000(alloc, &xs, &ys, k)?,
            wanted,
            "{n} {k} {wrong}"
        );
    }
    Ok(())
}
