// Recovering a key of its shares, though some are wrong.
ghost use Rattle.std.specs.Prelude.{◌≡◌, ℕ, ◌+◌, ◌*◌, ◌^◌, ◌<◌, ◌≤◌, ◌↔◌, List, length, IsSome, IfSome, IsSomeAnd};
ghost use Rattle.std.specs.Option.{option_map};
ghost use Rattle.poly61.specs.Poly.{AreDistinct};
ghost use Rattle.shamir_limbs.specs.Limbs.{IsKey, AreLimbs};
ghost use Rattle.shamir_limbs.specs.KeyLine.{xs_of, is_on_all, agreement_of_all, values_at_zero, IsKeyLine, IsShortKeyLine, IsRecoveredFrom};
ghost use Rattle.shamir_limbs.specs.Search.{key_line_of, recovered_from};

use crate::key::{Key, key_of};
use crate::key_work::KeyWork;
use crate::limb_work::LimbWork;
use crate::share::Point;
use crate::shares::Shares;
use field61::Fe;
use poly61::Poly;

/// A key, and how many points lie on all three of its polynomials.
#[derive(Clone, Copy, Debug, PartialEq, Eq)]
pub struct Recovered {
    pub key: Key,
    pub agree: u32,
}

/// A key that was recovered, and its three polynomials.
#[derive(Drop)]
pub struct KeyLine {
    pub found: Recovered,
    pub first: Poly,
    pub second: Poly,
    pub third: Poly,
}

/// Finds the key whose limbs are the values at 0 of three polynomials of degree below k, where at
/// least (n + k) / 2 of the n points lie on all three. There is at most one. Takes no memory.
pub fn recover(work: &mut KeyWork, points: &[Point], k: usize) -> Option<Recovered>
    requires distinct { AreDistinct (xs_of points.now) }
    requires some { 1 ≤ k }
    requires threshold { k ≤ length points.now }
    requires work { length points.now ≤ work.old }
    requires points { length points.now < 2 ^ 32 }
    ensures work { work.new ≡ work.old }
    ensures found { IfSome result (λ r. (q0 : List ℕ) × (q1 : List ℕ) × (q2 : List ℕ)
        × IsKeyLine q0 q1 q2 points.now k × IsRecoveredFrom r q0 q1 q2 points.now) }
    ensures only { (q0 q1 q2 : List ℕ) → IsKeyLine q0 q1 q2 points.now k
        → IsSomeAnd result (λ r. IsRecoveredFrom r q0 q1 q2 points.now) }
    ensures line { result ≡ key_line_of points.now k }
{
    find_line(
        &mut work.limbs,
        &Shares { points, k },
        &mut work.first,
        &mut work.second,
        &mut work.third,
    )
}

/// Finds what [`recover`] finds, and hands the three polynomials back, each in the room that the
/// work had for it. Takes no memory.
pub fn recover_line(mut work: KeyWork, points: &[Point], k: usize) -> Option<KeyLine>
    requires distinct { AreDistinct (xs_of points.now) }
    requires some { 1 ≤ k }
    requires threshold { k ≤ length points.now }
    requires work { length points.now ≤ work }
    requires points { length points.now < 2 ^ 32 }
    ensures found { option_map (λ line. line.found) result ≡ key_line_of points.now k }
    ensures line { IfSome result (λ line.
        IsKeyLine line.first line.second line.third points.now k) }
    ensures from { IfSome result (λ line. line.found
        ≡ recovered_from line.first line.second line.third points.now) }
    ensures room { IfSome result (λ line. (length line.first ≡ work) × (length line.second ≡ work)
        × (length line.third ≡ work)) }
{
    let found = find_line(
        &mut work.limbs,
        &Shares { points, k },
        &mut work.first,
        &mut work.second,
        &mut work.third,
    )?;
    let KeyWork {
        first,
        second,
        third,
        ..
    } = work;
    Some(KeyLine {
        found,
        first,
        second,
        third,
    })
}

// Makes the polynomials those of the key.
fn find_line(
    limbs: &mut LimbWork,
    shares: &Shares,
    first: &mut Poly,
    second: &mut Poly,
    third: &mut Poly,
) -> Option<Recovered>
    requires work { length shares.now.points.now ≤ limbs.old }
    requires room { (shares.now.k ≤ length first.old) × (shares.now.k ≤ length second.old)
        × (shares.now.k ≤ length third.old) }
    ensures work { limbs.new ≡ limbs.old }
    ensures room { (length first.new ≡ length first.old) × (length second.new ≡ length second.old)
        × (length third.new ≡ length third.old) }
    ensures line { IfSome result (λ r. IsKeyLine first.new second.new third.new shares.now.points.now shares.now.k) }
    ensures from { IfSome result (λ r.
        IsRecoveredFrom r first.new second.new third.new shares.now.points.now) }
    ensures key { IfSome result (λ r. IsKey r.key.bytes) }
    ensures only { (q0 q1 q2 : List ℕ) → IsKeyLine q0 q1 q2 shares.now.points.now shares.now.k
        → IsSomeAnd result (λ r. IsRecoveredFrom r q0 q1 q2 shares.now.points.now) }
{
    if !limbs.decode(shares, 0, first) {
        return None;
    }
    if !limbs.decode_near(first, shares, 1, second) {
        return None;
    }
    if !limbs.decode_near(first, shares, 2, third) {
        return None;
    }
    key_through(first, second, third, shares)
}

/// Tries the three polynomials of degree below k through the first k points alone: gives the key
/// exactly where they are those that [`recover`] finds. Takes no memory.
pub fn recover_short(work: &mut KeyWork, points: &[Point], k: usize) -> Option<Recovered>
    requires distinct { AreDistinct (xs_of points.now) }
    requires some { 1 ≤ k }
    requires threshold { k ≤ length points.now }
    requires work { length points.now ≤ work.old }
    requires points { length points.now < 2 ^ 32 }
    ensures work { work.new ≡ work.old }
    ensures found { IfSome result (λ r. (q0 : List ℕ) × (q1 : List ℕ) × (q2 : List ℕ)
        × IsShortKeyLine q0 q1 q2 points.now k × IsRecoveredFrom r q0 q1 q2 points.now) }
    ensures only { (q0 q1 q2 : List ℕ) → IsShortKeyLine q0 q1 q2 points.now k
        → IsSomeAnd result (λ r. IsRecoveredFrom r q0 q1 q2 points.now) }
{
    let shares = Shares { points, k };
    let limbs = &mut work.limbs;
    if !limbs.decode_short(&shares, 0, &mut work.first) {
        return None;
    }
    if !limbs.decode_short(&shares, 1, &mut work.second) {
        return None;
    }
    if !limbs.decode_short(&shares, 2, &mut work.third) {
        return None;
    }
    key_through(&work.first, &work.second, &work.third, &shares)
}

// The key whose limbs are the values at 0, where enough of the points lie on all three polynomials.
fn key_through(first: &Poly, second: &Poly, third: &Poly, shares: &Shares) -> Option<Recovered>
    ensures found { IsSome result
        ↔ (AreLimbs (values_at_zero first.now second.now third.now)
        × (length shares.now.points.now + shares.now.k
        ≤ 2 * agreement_of_all first.now second.now third.now shares.now.points.now)) }
    ensures from { IfSome result (λ r.
        IsRecoveredFrom r first.now second.now third.now shares.now.points.now) }
    ensures key { IfSome result (λ r. IsKey r.key.bytes) }
{
    let key = key_of(&[
        first.value_at(Fe::ZERO),
        second.value_at(Fe::ZERO),
        third.value_at(Fe::ZERO),
    ])?;
    let agree = agreement(first, second, third, shares.points);
    if agree as usize * 2 < shares.points.len() + shares.k {
        return None;
    }
    Some(Recovered { key, agree })
}

fn is_on_all(first: &Poly, second: &Poly, third: &Poly, point: &Point) -> bool
    ensures { result ≡ is_on_all first.now second.now third.now point.now }
{
    first.value_at(point.x).value() == point.y[0].value()
        && second.value_at(point.x).value() == point.y[1].value()
        && third.value_at(point.x).value() == point.y[2].value()
}

// How many of the points lie on all three polynomials.
fn agreement(first: &Poly, second: &Poly, third: &Poly, points: &[Point]) -> u32
    requires { length points.now < 2 ^ 32 }
    ensures { result ≡ agreement_of_all first.now second.now third.now points.now }
{
    let mut count = 0;
    for i in 0..points.len() {
        if is_on_all(first, second, third, &points[i]) {
            count += 1;
        }
    }
    count
}
