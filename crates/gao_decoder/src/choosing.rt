// The polynomial through points at which another one is not 0, and the count that decides.
ghost use Rattle.std.specs.Prelude.{◌≡◌, ◌≢◌, ◌↔◌, ℕ, ◌<◌, ◌≤◌, ◌+◌, ◌*◌, ◌^◌, List, length, slice_index, IsTrue, false};
ghost use Rattle.field61.specs.Field.{AreElements};
ghost use Rattle.poly61.specs.Poly.{value, IsZero, HasDegreeBelow, SameCoefficients, AreDistinct};
ghost use Rattle.gao_decoder.specs.Decoding.{agreement, IsDecoded};
ghost use Rattle.gao_decoder.specs.Problem.{Solves};
ghost use Rattle.gao_decoder.specs.Sequence.{IsStopped};
ghost use Rattle.gao_decoder.specs.Choosing.{nonzero_count, IsChosen};

use crate::problem::Problem;
use field61::{Fe, know_elements};
use poly61::Poly;

// Chooses point i where fewer than k are chosen and w is not 0 there, and answers how many are
// chosen then.
fn choose_one(
    candidate: &mut Poly,
    work: &mut Poly,
    w: &Poly,
    xs: &[Fe],
    ys: &[Fe],
    i: usize,
    chosen: usize,
    k: usize,
) -> usize
    requires distinct { AreDistinct xs.now }
    requires elements { AreElements xs.now }
    requires pairs { length xs.now ≡ length ys.now }
    requires point { i < length xs.now }
    requires room { k < length candidate.old }
    requires work_room { k < length work.old }
    requires within { chosen ≤ k }
    requires below { HasDegreeBelow candidate.old chosen }
    requires work_below { HasDegreeBelow work.old (chosen + 1) }
    requires chosen { IsChosen xs.now ys.now w.now candidate.old work.old i chosen k }
    ensures room { length candidate.new ≡ length candidate.old }
    ensures work_room { length work.new ≡ length work.old }
    ensures within { result ≤ k }
    ensures below { HasDegreeBelow candidate.new result }
    ensures work_below { HasDegreeBelow work.new (result + 1) }
    ensures chosen { IsChosen xs.now ys.now w.now candidate.new work.new (i + 1) result k }
{
    if chosen == k {
        return chosen;
    }
    if w.value_at(xs[i]).value() == 0 {
        return chosen;
    }
    candidate.pass_through(work, xs[i], ys[i]);
    chosen + 1
}

/// Makes the candidate the polynomial of degree below k through the first k points at which w is
/// not 0. Any other that passes through all such points is the same.
pub(crate) fn choose(candidate: &mut Poly, work: &mut Poly, w: &Poly, problem: &Problem)
    requires room { problem.now.k < length candidate.old }
    requires work_room { problem.now.k < length work.old }
    requires many { problem.now.k ≤ nonzero_count w.now problem.now.xs.now }
    ensures room { length candidate.new ≡ length candidate.old }
    ensures work_room { length work.new ≡ length work.old }
    ensures below { HasDegreeBelow candidate.new problem.now.k }
    ensures only { (f : List ℕ) → AreElements f → HasDegreeBelow f problem.now.k
        → ((i : ℕ) → i < length problem.now.xs.now → value w.now (slice_index problem.now.xs.now i) ≢ 0 →
        value f (slice_index problem.now.xs.now i) ≡ slice_index problem.now.ys.now i)
        → SameCoefficients candidate.new f }
{
    let Problem { xs, ys, k } = *problem;
    know_elements(xs);
    candidate.clear();
    work.clear();
    work.set_coefficient(0, Fe::ONE);
    let mut chosen = 0;
    for i in 0..xs.len() {
        chosen = choose_one(candidate, work, w, xs, ys, i, chosen, k);
    }
    candidate.know();
}

// At how many points the polynomial has the value y.
fn agreement_of(f: &Poly, xs: &[Fe], ys: &[Fe]) -> usize
    requires { length xs.now ≡ length ys.now }
    ensures { result ≡ agreement f.now xs.now ys.now }
{
    let mut count = 0;
    for i in 0..xs.len() {
        if f.value_at(xs[i]).value() == ys[i].value() {
            count += 1;
        }
    }
    count
}

// Whether 2 * count is at least n + k.
fn is_enough(count: usize, n: usize, k: usize) -> bool
    requires { n + k < 2 ^ 63 }
    ensures { IsTrue result ↔ n + k ≤ 2 * count }
{
    if n + k <= count {
        return true;
    }
    n + k - count <= count
}

/// Whether the polynomial of degree below k is decoded: it agrees with enough of all points.
pub(crate) fn is_decoded(f: &Poly, xs: &[Fe], ys: &[Fe], k: usize) -> bool
    requires pairs { length xs.now ≡ length ys.now }
    requires threshold { k ≤ length xs.now }
    requires below { HasDegreeBelow f.now k }
    ensures { IsTrue result ↔ IsDecoded f.now xs.now ys.now k }
{
    f.know();
    is_enough(agreement_of(f, xs, ys), xs.len(), k)
}

/// Makes out the candidate where it is decoded, and else the zero polynomial.
pub(crate) fn accept(candidate: &Poly, xs: &[Fe], ys: &[Fe], k: usize, out: &mut Poly) -> bool
    requires pairs { length xs.now ≡ length ys.now }
    requires threshold { k ≤ length xs.now }
    requires below { HasDegreeBelow candidate.now k }
    requires room { k ≤ length out.old }
    ensures room { length out.new ≡ length out.old }
    ensures decoded { IsTrue result ↔ IsDecoded candidate.now xs.now ys.now k }
    ensures same { IsTrue result → SameCoefficients out.new candidate.now }
    ensures found { IsTrue result → IsDecoded out.new xs.now ys.now k }
    ensures none { result ≡ false → IsZero out.new }
{
    if !is_decoded(candidate, xs, ys, k) {
        out.clear();
        return false;
    }
    out.copy_from(candidate);
    out.know();
    true
}

/// Decodes by the polynomial through the first k points at which the cofactor is not 0, where the
/// sequence stopped.
pub(crate) fn close(
    candidate: &mut Poly,
    work: &mut Poly,
    remainder: &Poly,
    cofactor: &Poly,
    degree: usize,
    problem: &Problem,
    out: &mut Poly,
) -> bool
    requires stopped { IsStopped problem.now.xs.now problem.now.ys.now remainder.now
        cofactor.now problem.now.k degree }
    requires candidate_room { length problem.now.xs.now < length candidate.old }
    requires work_room { length problem.now.xs.now < length work.old }
    requires room { problem.now.k ≤ length out.old }
    ensures candidate_room { length candidate.new ≡ length candidate.old }
    ensures work_room { length work.new ≡ length work.old }
    ensures room { length out.new ≡ length out.old }
    ensures found { IsTrue result → Solves out.new problem.now }
    ensures complete { (f : List ℕ) → Solves f problem.now → IsTrue result }
    ensures only { (f : List ℕ) → Solves f problem.now → SameCoefficients out.new f }
    ensures none { result ≡ false → IsZero out.new }
{
    know_elements(problem.xs);
    know_elements(problem.ys);
    remainder.know();
    cofactor.know();
    choose(candidate, work, cofactor, problem);
    candidate.know();
    accept(candidate, problem.xs, problem.ys, problem.k, out)
}
