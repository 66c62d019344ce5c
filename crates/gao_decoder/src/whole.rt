// The decoders of all points: by halving, and by the remainder sequence where that answers nothing.
ghost use Rattle.std.specs.Prelude.{◌≡◌, ℕ, ◌<◌, ◌≤◌, List, length, IsTrue, false};
ghost use Rattle.poly61.specs.Poly.{IsZero, SameCoefficients};
ghost use Rattle.gao_decoder.specs.Problem.{Solves};
ghost use Rattle.gao_decoder.specs.Sequence.{HaveRoom};

use crate::choosing::close;
use crate::halving::Halves;
use crate::problem::Problem;
use crate::sequence::Remainders;
use poly61::Poly;

/// Decodes by halving.
pub(crate) fn decode_by_halving(
    remainders: &mut Remainders,
    halves: &mut Halves,
    problem: &Problem,
    out: &mut Poly,
) -> bool
    requires rooms { HaveRoom remainders.old (length remainders.old.upper) }
    requires remainder_room { length problem.now.xs.now < length remainders.old.upper }
    requires room { problem.now.k ≤ length out.old }
    ensures rooms { HaveRoom remainders.new (length remainders.old.upper) }
    ensures room { length out.new ≡ length out.old }
    ensures found { IsTrue result → Solves out.new problem.now }
    ensures complete { (f : List ℕ) → Solves f problem.now → IsTrue result }
    ensures only { (f : List ℕ) → Solves f problem.now → SameCoefficients out.new f }
    ensures none { result ≡ false → IsZero out.new }
{
    if let Some(degree) = halves.run(problem) {
        return close(
            &mut remainders.upper,
            &mut remainders.upper_cofactor,
            &halves.rows.a.r,
            &halves.rows.a.v,
            degree,
            problem,
            out,
        );
    }
    decode_by_sequence(remainders, problem, out)
}

/// Decodes by the remainder sequence (Gao 2003).
pub(crate) fn decode_by_sequence(
    remainders: &mut Remainders,
    problem: &Problem,
    out: &mut Poly,
) -> bool
    requires rooms { HaveRoom remainders.old (length remainders.old.upper) }
    requires remainder_room { length problem.now.xs.now < length remainders.old.upper }
    requires room { problem.now.k ≤ length out.old }
    ensures rooms { HaveRoom remainders.new (length remainders.old.upper) }
    ensures room { length out.new ≡ length out.old }
    ensures found { IsTrue result → Solves out.new problem.now }
    ensures complete { (f : List ℕ) → Solves f problem.now → IsTrue result }
    ensures only { (f : List ℕ) → Solves f problem.now → SameCoefficients out.new f }
    ensures none { result ≡ false → IsZero out.new }
{
    remainders.begin(problem);
    let degree = remainders.run_down(problem);
    close(
        &mut remainders.upper,
        &mut remainders.upper_cofactor,
        &remainders.lower,
        &remainders.lower_cofactor,
        degree,
        problem,
        out,
    )
}
