// Samples of the points.
ghost use Rattle.std.specs.Prelude.{◌≡◌, ℕ, ◌<◌, ◌≤◌, ◌+◌, length, slice_index, IsTrue};
ghost use Rattle.poly61.specs.Poly.{AreDistinct};
ghost use Rattle.gao_decoder.specs.Problem.{Solves};
ghost use Rattle.gao_decoder.specs.Sequence.{HaveRoom};

use crate::choosing::is_decoded;
use crate::halving::Halves;
use crate::problem::Problem;
use crate::scratch::Scratch;
use crate::sequence::Remainders;
use crate::whole::decode_by_halving;
use field61::Fe;
use poly61::Poly;

// Fewer points are decoded whole in no more time.
const MANY_POINTS: usize = 200;

// How many points more than k the first sample has at least, and else a quarter of k: a sample that
// has few more costs as much and bears few wrong ones. Each next one has four times as many more.
const FIRST_MORE: usize = 16;

// Fills the sample with points at even strides over all of them.
fn take_sample(sample_xs: &mut [Fe], sample_ys: &mut [Fe], xs: &[Fe], ys: &[Fe]) -> bool
    requires distinct { AreDistinct xs.now }
    requires pairs { length xs.now ≡ length ys.now }
    requires sample { length sample_xs.old ≡ length sample_ys.old }
    ensures distinct { IsTrue result → AreDistinct sample_xs.new }
{
    let size = sample_xs.len();
    if size == 0 || size > xs.len() {
        return false;
    }
    let stride = xs.len() / size;
    let left_over = xs.len() % size;
    let mut at = 0;
    let mut part = 0;
    for i in 0..size {
        if at >= xs.len() {
            return false;
        }
        sample_xs[i] = xs[at];
        sample_ys[i] = ys[at];
        at += stride;
        part += left_over;
        if part >= size {
            part -= size;
            at += 1;
        }
    }
    true
}

/// Decodes samples of growing sizes, at even strides over all points.
pub(crate) fn decode_sampled(scratch: &mut Scratch, problem: &Problem, out: &mut Poly) -> bool
    requires scratch { length problem.now.xs.now ≤ scratch.old }
    requires room { problem.now.k ≤ length out.old }
    ensures scratch { scratch.new ≡ scratch.old }
    ensures room { length out.new ≡ length out.old }
    ensures found { IsTrue result → Solves out.new problem.now }
{
    if problem.xs.len() < MANY_POINTS {
        return false;
    }
    let mut more = FIRST_MORE.max(problem.k / 4);
    for _ in 0..32 {
        let size = problem.k.saturating_add(more);
        if size > problem.xs.len() / 2 {
            return false;
        }
        if decode_sample(scratch, problem, size, out) {
            return true;
        }
        more = more.saturating_mul(4);
    }
    false
}

// Decodes a sample, and counts its polynomial over all points.
fn decode_sample(scratch: &mut Scratch, problem: &Problem, size: usize, out: &mut Poly) -> bool
    requires threshold { problem.now.k ≤ size }
    requires within { size ≤ length problem.now.xs.now }
    requires scratch { length problem.now.xs.now ≤ scratch.old }
    requires room { problem.now.k ≤ length out.old }
    ensures scratch { scratch.new ≡ scratch.old }
    ensures room { length out.new ≡ length out.old }
    ensures found { IsTrue result → Solves out.new problem.now }
{
    if scratch.sample_xs.len() < size || scratch.sample_ys.len() < size {
        return false;
    }
    decode_sample_in(
        &mut scratch.sample_xs[..size],
        &mut scratch.sample_ys[..size],
        &mut scratch.remainders,
        &mut scratch.halves,
        problem,
        out,
    )
}

fn decode_sample_in(
    sample_xs: &mut [Fe],
    sample_ys: &mut [Fe],
    remainders: &mut Remainders,
    halves: &mut Halves,
    problem: &Problem,
    out: &mut Poly,
) -> bool
    requires sample { length sample_ys.old ≡ length sample_xs.old }
    requires sample_threshold { problem.now.k ≤ length sample_xs.old }
    requires rooms { HaveRoom remainders.old (length remainders.old.upper) }
    requires sample_room { length sample_xs.old < length remainders.old.upper }
    requires room { problem.now.k ≤ length out.old }
    ensures rooms { HaveRoom remainders.new (length remainders.old.upper) }
    ensures room { length out.new ≡ length out.old }
    ensures found { IsTrue result → Solves out.new problem.now }
{
    if !take_sample(sample_xs, sample_ys, problem.xs, problem.ys) {
        return false;
    }
    let sample = Problem {
        xs: sample_xs,
        ys: sample_ys,
        k: problem.k,
    };
    if !decode_by_halving(remainders, halves, &sample, out) {
        return false;
    }
    is_decoded(out, problem.xs, problem.ys, problem.k)
}
