// The polynomial that most points lie on.
ghost use Rattle.std.specs.Prelude.{◌≡◌, ◌↔◌, ℕ, ◌<◌, ◌≤◌, List, length, IsTrue, true, false, MatchOption};
ghost use Rattle.poly61.specs.Poly.{IsZero, SameCoefficients, AreDistinct, PassesThrough};
ghost use Rattle.gao_decoder.specs.Decoding.{IsDecoded, IsDecodedShort};
ghost use Rattle.gao_decoder.specs.Search.{decoding_of};

use crate::choosing::accept;
use crate::problem::Problem;
use crate::sampling::decode_sampled;
use crate::scratch::Scratch;
use crate::whole::decode_by_halving;
use field61::{Fe, know_elements};
use poly61::Poly;

/// Finds the polynomial of degree below k that agrees with at least (n + k) / 2 of the n points.
/// There is at most one. Takes no memory.
pub fn decode(scratch: &mut Scratch, xs: &[Fe], ys: &[Fe], k: usize, out: &mut Poly) -> bool
    requires distinct { AreDistinct xs.now }
    requires pairs { length xs.now ≡ length ys.now }
    requires some { 1 ≤ k }
    requires threshold { k ≤ length xs.now }
    requires scratch { length xs.now ≤ scratch.old }
    requires room { k ≤ length out.old }
    ensures scratch { scratch.new ≡ scratch.old }
    ensures room { length out.new ≡ length out.old }
    ensures found { IsTrue result → IsDecoded out.new xs.now ys.now k }
    ensures exactly { IsTrue result ↔ ((f : List ℕ) × IsDecoded f xs.now ys.now k) }
    ensures only { (f : List ℕ) → IsDecoded f xs.now ys.now k → SameCoefficients out.new f }
    ensures none { result ≡ false → IsZero out.new }
    ensures search { MatchOption (decoding_of xs.now ys.now k) (result
        ≡ false) (λ f. (result ≡ true) × SameCoefficients out.new f) }
{
    know_elements(xs);
    if decode_short(scratch, xs, ys, k, out) {
        return true;
    }
    let problem = Problem { xs, ys, k };
    if decode_sampled(scratch, &problem, out) {
        return true;
    }
    decode_by_halving(&mut scratch.remainders, &mut scratch.halves, &problem, out)
}

/// Tries the polynomial of degree below k through the first k points alone: true exactly where it
/// agrees with at least (n + k) / 2 of the n points. Takes no memory.
pub fn decode_short(scratch: &mut Scratch, xs: &[Fe], ys: &[Fe], k: usize, out: &mut Poly) -> bool
    requires distinct { AreDistinct xs.now }
    requires pairs { length xs.now ≡ length ys.now }
    requires some { 1 ≤ k }
    requires threshold { k ≤ length xs.now }
    requires scratch { length xs.now ≤ scratch.old }
    requires room { k ≤ length out.old }
    ensures scratch { scratch.new ≡ scratch.old }
    ensures room { length out.new ≡ length out.old }
    ensures found { IsTrue result → IsDecodedShort out.new xs.now ys.now k }
    ensures exactly { IsTrue result ↔ ((f : List ℕ) × IsDecodedShort f xs.now ys.now k) }
    ensures only { (f : List ℕ) → IsDecodedShort f xs.now ys.now k → SameCoefficients out.new f }
    ensures none { result ≡ false → IsZero out.new }
{
    know_elements(xs);
    decode_through(scratch, &xs[..k], &ys[..k], xs, ys, out)
}

/// Tries the polynomial of lowest degree through some points: true exactly where it agrees with at
/// least (n + k) / 2 of the n points, k being how many the some are. Takes no memory.
pub fn decode_through(
    scratch: &mut Scratch,
    some_xs: &[Fe],
    some_ys: &[Fe],
    xs: &[Fe],
    ys: &[Fe],
    out: &mut Poly,
) -> bool
    requires some_distinct { AreDistinct some_xs.now }
    requires some_pairs { length some_xs.now ≡ length some_ys.now }
    requires pairs { length xs.now ≡ length ys.now }
    requires threshold { length some_xs.now ≤ length xs.now }
    requires scratch { length xs.now ≤ scratch.old }
    requires room { length some_xs.now ≤ length out.old }
    ensures scratch { scratch.new ≡ scratch.old }
    ensures room { length out.new ≡ length out.old }
    ensures found { IsTrue result → IsDecoded out.new xs.now ys.now (length some_xs.now) }
    ensures passes { IsTrue result → PassesThrough out.new some_xs.now some_ys.now }
    ensures complete { (f : List ℕ) → IsDecoded f xs.now ys.now (length some_xs.now) →
        PassesThrough f some_xs.now some_ys.now → IsTrue result }
    ensures none { result ≡ false → IsZero out.new }
{
    know_elements(some_xs);
    scratch
        .remainders
        .lower
        .interpolate(&mut scratch.remainders.upper, some_xs, some_ys);
    scratch.remainders.lower.know();
    accept(&scratch.remainders.lower, xs, ys, some_xs.len(), out)
}
