ghost use Rattle.shamir_limbs.specs.KeyLine.{xs_of, AreDistinct};

use super::*;
use field61::Fe;
use star_io::NoMemory;

fn element(n: u64) -> Fe {
    Fe::new(n).unwrap_or(Fe::ZERO)
}

#[test]
fn a_key_and_its_limbs(rt: HostRuntime) {
    let cases: [([u8; 16], [u64; 3]); 3] = [
        (
            *b"\x00\x01\x02\x03\x04\x05\x06\x07\x08\x09\x0a\x0b\x0c\x0d\x0e\x0f",
            [4328719365, 25887770890, 47446822415],
        ),
        ([0xff; 16], [281474976710655, 1099511627775, 1099511627775]),
        ([0; 16], [0, 0, 0]),
    ];
    for (bytes, numbers) in cases {
        let key = Key { bytes };
        let limbs = limbs_of(&key);
        assert_eq!(rt; limbs.map(Fe::value), numbers);
        assert_eq!(rt; key_of(&limbs), Some(key));
    }
}

#[test]
fn one_bit_too_many_is_no_limb(rt: HostRuntime) {
    let cases: [[u64; 3]; 3] = [
        [281474976710656, 0, 0],
        [0, 1099511627776, 0],
        [0, 0, 1099511627776],
    ];
    for numbers in cases {
        let numbers = numbers.map(element);
        assert_eq!(rt; key_of(&numbers), None);
    }
}

// The values that Python's integers give modulo 2^61 - 1.
#[test]
fn the_share_of_three_polynomials(rt: HostRuntime) -> Result<(), NoMemory> {
    let key = Key {
        bytes: *b"\x00\x01\x02\x03\x04\x05\x06\x07\x08\x09\x0a\x0b\x0c\x0d\x0e\x0f",
    };
    let mut coefficients = Coefficients::of(rt.alloc(), &key, 3)?;
    coefficients.set(0, 1, element(5));
    coefficients.set(0, 2, element(2305843009213693950));
    coefficients.set(1, 2, element(7));
    coefficients.set(2, 1, element(1152921504606846976));
    let cases: [(u64, [u64; 3]); 4] = [
        (0, [4328719365, 25887770890, 47446822415]),
        (2, [4328719371, 25887770918, 47446822416]),
        (
            123456789012345678,
            [459090238806921202, 1107355999972456761, 61728441952995254],
        ),
        (
            2305843009213693950,
            [4328719359, 25887770897, 1152921552053669390],
        ),
    ];
    for (x, y) in cases {
        assert_eq!(rt; share_at(&coefficients, element(x)).map(Fe::value), y);
    }
    Ok(())
}

// The points 1 to 4 with these shares.
fn four_points(shares: [[u64; 3]; 4]) -> [Point; 4]
    ensures { AreDistinct (xs_of result) }
{
    let [first, second, third, fourth] = shares.map(|share| share.map(element));
    [
        Point {
            x: Fe::ONE,
            y: first,
        },
        Point {
            x: Fe::new(2).unwrap_or(Fe::ZERO),
            y: second,
        },
        Point {
            x: Fe::new(3).unwrap_or(Fe::ZERO),
            y: third,
        },
        Point {
            x: Fe::new(4).unwrap_or(Fe::ZERO),
            y: fourth,
        },
    ]
}

// The limbs of this key are 3, 1 and 5.
const KEY: Key = Key {
    bytes: *b"\x00\x00\x00\x00\x00\x03\x00\x00\x00\x00\x01\x00\x00\x00\x00\x05",
};

// Each row has the y of the second limb. The first limb is on 2x + 3 but at x = 1, and the third is
// 5. The second limb of the last row has a bit too many.
#[test]
fn the_key_of_four_points(rt: HostRuntime) -> Result<(), NoMemory> {
    let mut work = KeyWork::new(rt.alloc(), 4)?;
    assert_eq!(rt; work.room(), 4);
    let cases: [([u64; 4], Option<Recovered>); 3] = [
        ([2, 3, 4, 5], Some(Recovered { key: KEY, agree: 3 })),
        ([2, 9, 4, 5], None),
        ([1 << 40, 1 << 40, 1 << 40, 1 << 40], None),
    ];
    for ([a, b, c, d], wanted) in cases {
        let points = four_points([[6, a, 5], [7, b, 5], [9, c, 5], [11, d, 5]]);
        assert_eq!(rt; recover(&mut work, &points, 2), wanted);
    }
    Ok(())
}

// The first two points decide alone: a wrong share among them is too many, and behind them it isn't.
#[test]
fn the_key_of_the_first_points(rt: HostRuntime) -> Result<(), NoMemory> {
    let mut work = KeyWork::new(rt.alloc(), 4)?;
    let cases = [
        ([[6, 2, 5], [7, 3, 5], [9, 4, 5], [11, 5, 5]], None),
        (
            [[5, 2, 5], [7, 3, 5], [9, 4, 5], [12, 5, 5]],
            Some(Recovered { key: KEY, agree: 3 }),
        ),
        ([[5, 2, 5], [7, 9, 5], [9, 4, 5], [11, 5, 5]], None),
    ];
    for (shares, wanted) in cases {
        assert_eq!(rt; recover_short(&mut work, &four_points(shares), 2), wanted);
    }
    Ok(())
}

// Where a key is recovered its polynomials are handed back: here 2x + 3, x + 1 and 5.
#[test]
fn the_polynomials_of_a_key(rt: HostRuntime) -> Result<(), NoMemory> {
    let points = four_points([[6, 2, 5], [7, 3, 5], [9, 4, 5], [11, 5, 5]]);
    let work = KeyWork::new(rt.alloc(), 4)?;
    let line = recover_line(work, &points, 2).expect(&rt, "there is a key");
    let lowest = [line.first, line.second, line.third].map(|f| [
        f.coefficient(0).value(),
        f.coefficient(1).value(),
    ]);
    assert_eq!(rt; lowest, [[3, 2], [1, 1], [5, 0]]);
    assert_eq!(rt; line.found.agree, 3);
    Ok(())
}
