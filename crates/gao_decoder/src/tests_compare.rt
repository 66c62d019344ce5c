// The ways of decoding beside each other, on points of which each number is wrong.
ghost use Rattle.std.specs.Prelude.{◌≡◌, ◌<◌, ◌+◌, ◌^◌, ℕ, length, slice_index, IfOk};

use crate::problem::Problem;
use crate::sampling::decode_sampled;
use crate::tests_table::points;
use crate::whole::{decode_by_halving, decode_by_sequence};
use crate::{Scratch, decode, decode_short};
use field61::Fe;
use poly61::Poly;
use star_io::NoMemory;
use std::alloc::Global;
use std::test::Fail;

// What a wrong value is.
#[derive(Clone, Copy, Debug)]
enum Wrong {
    Random,
    Zero,
    OnAnother,
}

// Where the wrong values are.
#[derive(Clone, Copy, Debug)]
enum Place {
    First,
    Last,
    Spread,
}

#[derive(Clone, Copy, Debug)]
struct Case {
    n: usize,
    k: usize,
    wrong: usize,
    what: Wrong,
    place: Place,
}

impl Case {
    fn is_wrong(&self, i: usize) -> bool {
        match self.place {
            Place::First => i < self.wrong,
            Place::Last => i.saturating_add(self.wrong) >= self.n,
            Place::Spread => i.wrapping_mul(37).checked_rem(self.n).unwrap_or(0) < self.wrong,
        }
    }
}

// The next number of a sequence that looks random.
fn next(s: Fe) -> Fe {
    s.mul(s).add(Fe::new(1234567890123457).unwrap_or(Fe::ONE))
}

// A polynomial that looks random.
fn polynomial(alloc: Global, k: usize, seed: Fe) -> Result<Poly, NoMemory> {
    let mut f = Poly::with_room(alloc, k)?;
    let mut s = seed;
    for i in 0..k {
        s = next(s);
        f.set_coefficient(i, s);
    }
    Ok(f)
}

fn values(alloc: Global, xs: &[Fe], case: Case) -> Result<Vec<Fe>, NoMemory>
    ensures { IfOk result (λ ys. length ys.items ≡ length xs.now) }
{
    let f = polynomial(alloc, case.k, Fe::ONE)?;
    let g = polynomial(alloc, case.k, Fe::ZERO)?;
    let mut s = Fe::new(987654321987654321).unwrap_or(Fe::ONE);
    let mut ys = Vec::new(alloc);
    for i in 0..xs.len() {
        s = next(s);
        let wrong = match case.what {
            Wrong::Random => s,
            Wrong::Zero => Fe::ZERO,
            Wrong::OnAnother => g.value_at(xs[i]),
        };
        ys.push(if case.is_wrong(i) {
            wrong
        } else {
            f.value_at(xs[i])
        })?;
    }
    Ok(ys)
}

fn are_same(f: &Poly, g: &Poly, k: usize) -> bool {
    (0..k).all(|i| f.coefficient(i) == g.coefficient(i))
}

// Whether the five ways agree. The quick ones may find nothing.
fn agree(alloc: Global, xs: &[Fe], ys: &[Fe], k: usize) -> Result<bool, NoMemory>
    requires places { (i : ℕ) → i < length xs.now → slice_index xs.now i ≡ i + 1 }
    requires pairs { length xs.now ≡ length ys.now }
{
    if k == 0 || xs.len() < k || xs.len() > 4096 {
        return Ok(false);
    }
    let mut scratch = Scratch::new(alloc, xs.len())?;
    let mut by_sequence = Poly::with_room(alloc, k)?;
    let mut out = Poly::with_room(alloc, k)?;
    let problem = Problem { xs, ys, k };
    let wanted = decode_by_sequence(&mut scratch.remainders, &problem, &mut by_sequence);
    let halved = decode_by_halving(
        &mut scratch.remainders,
        &mut scratch.halves,
        &problem,
        &mut out,
    );
    let same_halved = halved == wanted && are_same(&out, &by_sequence, k);
    let short = decode_short(&mut scratch, xs, ys, k, &mut out);
    let same_short = !short || wanted && are_same(&out, &by_sequence, k);
    let sampled = decode_sampled(&mut scratch, &problem, &mut out);
    let same_sampled = !sampled || wanted && are_same(&out, &by_sequence, k);
    let found = decode(&mut scratch, xs, ys, k, &mut out);
    Ok(
        same_halved
            && same_short
            && same_sampled
            && found == wanted
            && are_same(&out, &by_sequence, k),
    )
}

fn compare(alloc: Global, case: Case) -> Result<bool, NoMemory> {
    if case.n > 4096 {
        return Ok(false);
    }
    let xs = points(alloc, case.n)?;
    let ys = values(alloc, &xs, case)?;
    agree(alloc, &xs, &ys, case.k)
}

// Each number of wrong values, from none to two beyond the most that decode.
#[test]
fn each_number_of_wrong_values(rt: HostRuntime) -> Result<(), Fail> {
    let alloc = rt.alloc();
    for (n, k) in [
        (1, 1),
        (2, 1),
        (5, 2),
        (9, 4),
        (16, 16),
        (33, 10),
        (40, 3),
        (65, 20),
    ] {
        for wrong in 0..(n - k) / 2 + 3 {
            for what in [Wrong::Random, Wrong::Zero, Wrong::OnAnother] {
                for place in [Place::First, Place::Last, Place::Spread] {
                    let case = Case {
                        n,
                        k,
                        wrong,
                        what,
                        place,
                    };
                    assert_eq!(rt; compare(alloc, case)?, true, "{case:?}");
                }
            }
        }
    }
    Ok(())
}

// So many points that samples are taken, and that a run is halved more than once.
#[test]
fn points_of_which_samples_are_taken(rt: HostRuntime) -> Result<(), Fail> {
    let alloc = rt.alloc();
    let (n, k) = (210, 6);
    for wrong in [0, 1, 30, 60, 90, 101, 102, 103, 104] {
        for what in [Wrong::Random, Wrong::Zero, Wrong::OnAnother] {
            for place in [Place::First, Place::Last, Place::Spread] {
                let case = Case {
                    n,
                    k,
                    wrong,
                    what,
                    place,
                };
                assert_eq!(rt; compare(alloc, case)?, true, "{case:?}");
            }
        }
    }
    Ok(())
}

// So many points that products are taken by halves.
#[test]
fn many_points(rt: HostRuntime) -> Result<(), Fail> {
    let alloc = rt.alloc();
    let (n, k) = (600, 4);
    for wrong in [297, 298, 299] {
        for what in [Wrong::Random, Wrong::OnAnother] {
            let place = Place::Spread;
            let case = Case {
                n,
                k,
                wrong,
                what,
                place,
            };
            assert_eq!(rt; compare(alloc, case)?, true, "{case:?}");
        }
    }
    Ok(())
}
