// The audit of a certificate.
ghost use Rattle.std.specs.Prelude.{◌≡◌, ℕ, ◌≤◌, ◌<◌, ◌^◌, List, [], ◌∷◌, length};
ghost use Rattle.shamir_limbs.specs.Coefficients.{values};
ghost use Rattle.shamir_limbs.specs.KeyLine.{is_on_all, agreement_of_all};
ghost use Rattle.cert_audit.specs.Audit.{verdict_of};
ghost use Rattle.cert_audit.specs.Certificate.{IsCert};
ghost use Rattle.cert_audit.specs.Laws.{Opens};
ghost use Rattle.cert_audit.specs.declared.verdict.Verdict.TheVariants.{Yes};

use crate::cert::Cert;
use crate::ranges::know_cert;
use crate::verdict::Verdict;
use adss_commit::open_value;
use field61::Fe;
use shamir_limbs::{Point, key_of};

/// Whether the certificate shows that its group opens, and to what; else the first thing that is
/// wrong with it. Nothing is decoded, and no memory is taken.
pub fn audit(cert: &Cert) -> Verdict
    requires { IsCert cert.now }
    ensures verdict { result ≡ verdict_of cert.now }
    // No other polynomials would show another outcome of these points.
    ensures sound { (value : List ℕ) (agree : ℕ) → result ≡ Yes value agree →
        Opens cert.now value agree }
{
    know_cert(cert);
    let points = cert.points.as_slice();
    let k = cert.head.k as usize;
    if points.len() < k {
        return Verdict::Few;
    }
    let numbers = cert.numbers.as_slice();
    let first = &numbers[0..k];
    let second = &numbers[k..2 * k];
    let third = &numbers[2 * k..3 * k];
    let Some(key) = key_of(&values_at(first, second, third, Fe::ZERO)) else {
        return Verdict::Key;
    };
    let agree = agreement(first, second, third, points);
    if 2 * (agree as usize) < points.len() + k {
        return Verdict::Short { agree };
    }
    match open_value(&key, &cert.head, &cert.parent, cert.epoch, cert.level) {
        Some(value) => Verdict::Yes { value, agree },
        None => Verdict::Value,
    }
}

// How many of the points lie on all three polynomials.
fn agreement(first: &[Fe], second: &[Fe], third: &[Fe], points: &[Point]) -> u32
    requires points { length points.now < 2 ^ 32 }
    requires second { length second.now ≡ length first.now }
    requires third { length third.now ≡ length first.now }
    ensures { result ≡ agreement_of_all first.now second.now third.now points.now }
{
    let mut count = 0;
    for i in 0..points.len() {
        if is_on_all(first, second, third, &points[i]) {
            count += 1;
        }
    }
    count
}

fn is_on_all(first: &[Fe], second: &[Fe], third: &[Fe], point: &Point) -> bool
    requires second { length second.now ≡ length first.now }
    requires third { length third.now ≡ length first.now }
    ensures { result ≡ is_on_all first.now second.now third.now point.now }
{
    let [y0, y1, y2] = values_at(first, second, third, point.x);
    y0.value() == point.y[0].value()
        && y1.value() == point.y[1].value()
        && y2.value() == point.y[2].value()
}

// The values of the three polynomials at x. They are as long, and are worked out side by side.
fn values_at(first: &[Fe], second: &[Fe], third: &[Fe], x: Fe) -> [Fe; 3]
    requires second { length second.now ≡ length first.now }
    requires third { length third.now ≡ length first.now }
    ensures { result ≡ values (first.now ∷ second.now ∷ third.now ∷ []) x }
{
    let mut y0 = Fe::ZERO;
    let mut y1 = Fe::ZERO;
    let mut y2 = Fe::ZERO;
    for i in (0..first.len()).rev() {
        y0 = first[i].add(x.mul(y0));
        y1 = second[i].add(x.mul(y1));
        y2 = third[i].add(x.mul(y2));
    }
    [y0, y1, y2]
}
