use super::*;
use std::test::Fail;

// In each row: two numbers, their sum, difference, the negative of the first, the product, the
// first to the power of the second, and the inverse of the first, or 0 if there is none.
// Python's integers gave them.
const INTEGERS: [[u64; 8]; 11] = [
    [0, 0, 0, 0, 0, 0, 1, 0],
    [0, 1, 1, 2305843009213693950, 0, 0, 0, 0],
    [
        1,
        2305843009213693950,
        0,
        2,
        2305843009213693950,
        2305843009213693950,
        1,
        1,
    ],
    [
        2305843009213693950,
        2305843009213693950,
        2305843009213693949,
        0,
        1,
        1,
        1,
        2305843009213693950,
    ],
    [
        2305843009213693950,
        2305843009213693949,
        2305843009213693948,
        1,
        1,
        2,
        2305843009213693950,
        2305843009213693950,
    ],
    [
        2305843009213693949,
        1,
        2305843009213693950,
        2305843009213693948,
        2,
        2305843009213693949,
        2305843009213693949,
        1152921504606846975,
    ],
    [
        2,
        1152921504606846976,
        1152921504606846978,
        1152921504606846977,
        2305843009213693949,
        1,
        2,
        1152921504606846976,
    ],
    [
        418983635330710151,
        499844581152741729,
        918828216483451880,
        2224982063391662373,
        1886859373882983800,
        219142345248911194,
        409639162255244820,
        1366726506821770331,
    ],
    [
        2091481658804620575,
        676363097439722673,
        462001747030649297,
        1415118561364897902,
        214361350409073376,
        325743150732462224,
        1609147377262378101,
        1297933690756182136,
    ],
    [
        1853845312400714917,
        63921434307813850,
        1917766746708528767,
        1789923878092901067,
        451997696812979034,
        734587517020014638,
        11079841780047509,
        1038597801151603925,
    ],
    [
        824169290926486437,
        150166884438640264,
        974336175365126701,
        674002406487846173,
        1481673718287207514,
        1479528049509955437,
        1830073114648237633,
        769139783376388010,
    ],
];

#[test]
fn agrees_with_integers(rt: HostRuntime) -> Result<(), Fail> {
    for [a, b, sum, difference, negative, product, power, inverse] in INTEGERS {
        let x = Fe::new(a).ok_or("an element")?;
        let y = Fe::new(b).ok_or("an element")?;
        assert_eq!(rt; x.add(y).value(), sum);
        assert_eq!(rt; x.sub(y).value(), difference);
        assert_eq!(rt; x.neg().value(), negative);
        assert_eq!(rt; x.mul(y).value(), product);
        assert_eq!(rt; x.pow(b).value(), power);
        assert_eq!(rt; x.inverse(), Fe::new(inverse).filter(|i| *i != Fe::ZERO));
    }
    Ok(())
}

#[test]
fn knows_the_ends(rt: HostRuntime) -> Result<(), Fail> {
    let two = Fe::new(2).ok_or("an element")?;
    let half = Fe::new(1152921504606846976).ok_or("an element")?;
    let last = Fe::new(MODULUS - 1).ok_or("an element")?;
    know_elements(&[Fe::ZERO, Fe::ONE, last]);
    assert_eq!(rt; two.mul(half), Fe::ONE);
    assert_eq!(rt; two.inverse(), Some(half));
    assert_eq!(rt; last.mul(last), Fe::ONE);
    assert_eq!(rt; last.pow(u64::MAX), last);
    assert_eq!(rt; Fe::ZERO.inverse(), None);
    assert_eq!(rt; Fe::new(MODULUS), None);
    Ok(())
}
