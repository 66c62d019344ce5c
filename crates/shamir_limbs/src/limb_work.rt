// One limb of the points, decoded.
ghost use Rattle.std.specs.Prelude.{◌≡◌, ℕ, ◌<◌, ◌≤◌, List, length, vec_capacity, IsTrue, IfOk};
ghost use Rattle.field61.specs.Field.{AreElements};
ghost use Rattle.poly61.specs.Poly.{SameCoefficients, AreDistinct};
ghost use Rattle.gao_decoder.specs.Decoding.{IsDecoded, IsDecodedShort};
ghost use Rattle.shamir_limbs.specs.KeyLine.{xs_of, ys_of};

use crate::share::Point;
use crate::shares::Shares;
use field61::{Fe, know_elements};
use gao_decoder::{Scratch, decode, decode_short, decode_through};
use poly61::Poly;
use star_io::NoMemory;
use std::alloc::Global;
use std::marker::Model;

/// Room for decoding a limb, seen as the number of points that it serves.
#[derive(Drop)]
pub(crate) struct LimbWork {
    scratch: Scratch,
    xs: Vec<Fe>,
    ys: Vec<Fe>,
    near_xs: Vec<Fe>,
    near_ys: Vec<Fe>,
}

impl Model for LimbWork {
    ghost use Rattle.std.specs.Prelude.{ℕ, ◌≤◌, vec_capacity};

    ghost Value = { ℕ };

    ghost view = { λ w. w.scratch };

    ghost invariant = { λ w. (w.scratch ≤ vec_capacity w.xs) × (w.scratch ≤ vec_capacity w.ys) };
}

impl LimbWork {
    pub(crate) fn new(alloc: Global, n: usize) -> Result<LimbWork, NoMemory>
        ensures { IfOk result (λ w. w ≡ n) }
    {
        Ok(LimbWork {
            scratch: Scratch::new(alloc, n)?,
            xs: Vec::with_capacity(alloc, n)?,
            ys: Vec::with_capacity(alloc, n)?,
            near_xs: vec![in alloc; Fe::ZERO; n]?,
            near_ys: vec![in alloc; Fe::ZERO; n]?,
        })
    }

    pub(crate) fn room(&self) -> usize
        ensures { result ≡ self.now }
    {
        self.scratch.room()
    }

    /// Decodes one limb.
    pub(crate) fn decode(&mut self, shares: &Shares, limb: usize, out: &mut Poly) -> bool
        requires limb { limb < 3 }
        requires work { length shares.now.points.now ≤ self.old }
        requires room { shares.now.k ≤ length out.old }
        ensures work { self.new ≡ self.old }
        ensures room { length out.new ≡ length out.old }
        ensures found { IsTrue result →
            IsDecoded out.new (xs_of shares.now.points.now) (ys_of shares.now.points.now limb) shares.now.k }
        ensures complete { (f : List ℕ) → IsDecoded f (xs_of shares.now.points.now) (ys_of shares.now.points.now limb) shares.now.k →
            IsTrue result }
        ensures only { (f : List ℕ) → IsDecoded f (xs_of shares.now.points.now) (ys_of shares.now.points.now limb) shares.now.k →
            SameCoefficients out.new f }
    {
        fill_xs(&mut self.xs, shares.points);
        fill_ys(&mut self.ys, shares.points, limb);
        decode(&mut self.scratch, &self.xs, &self.ys, shares.k, out)
    }

    /// Decodes one limb by the first k points alone.
    pub(crate) fn decode_short(&mut self, shares: &Shares, limb: usize, out: &mut Poly) -> bool
        requires limb { limb < 3 }
        requires work { length shares.now.points.now ≤ self.old }
        requires room { shares.now.k ≤ length out.old }
        ensures work { self.new ≡ self.old }
        ensures room { length out.new ≡ length out.old }
        ensures found { IsTrue result →
            IsDecodedShort out.new (xs_of shares.now.points.now) (ys_of shares.now.points.now limb) shares.now.k }
        ensures complete { (f : List ℕ) →
            IsDecodedShort f (xs_of shares.now.points.now) (ys_of shares.now.points.now limb) shares.now.k → IsTrue result }
        ensures only { (f : List ℕ) →
            IsDecodedShort f (xs_of shares.now.points.now) (ys_of shares.now.points.now limb) shares.now.k →
            SameCoefficients out.new f }
    {
        fill_xs(&mut self.xs, shares.points);
        fill_ys(&mut self.ys, shares.points, limb);
        decode_short(&mut self.scratch, &self.xs, &self.ys, shares.k, out)
    }

    /// Decodes one limb by the first k points that lie on the first limb's polynomial, and by all
    /// points where that answers nothing.
    pub(crate) fn decode_near(
        &mut self,
        first: &Poly,
        shares: &Shares,
        limb: usize,
        out: &mut Poly,
    ) -> bool
        requires limb { limb < 3 }
        requires work { length shares.now.points.now ≤ self.old }
        requires room { shares.now.k ≤ length out.old }
        ensures work { self.new ≡ self.old }
        ensures room { length out.new ≡ length out.old }
        ensures found { IsTrue result →
            IsDecoded out.new (xs_of shares.now.points.now) (ys_of shares.now.points.now limb) shares.now.k }
        ensures complete { (f : List ℕ) → IsDecoded f (xs_of shares.now.points.now) (ys_of shares.now.points.now limb) shares.now.k →
            IsTrue result }
        ensures only { (f : List ℕ) → IsDecoded f (xs_of shares.now.points.now) (ys_of shares.now.points.now limb) shares.now.k →
            SameCoefficients out.new f }
    {
        if self.guess_near(first, shares, limb, out) {
            return true;
        }
        self.decode(shares, limb, out)
    }

    // Tries the first k points that lie on the first limb's polynomial alone.
    fn guess_near(&mut self, first: &Poly, shares: &Shares, limb: usize, out: &mut Poly) -> bool
        requires limb { limb < 3 }
        requires work { length shares.now.points.now ≤ self.old }
        requires room { shares.now.k ≤ length out.old }
        ensures work { self.new ≡ self.old }
        ensures room { length out.new ≡ length out.old }
        ensures elements { AreElements (xs_of shares.now.points.now) }
        ensures found { IsTrue result →
            IsDecoded out.new (xs_of shares.now.points.now) (ys_of shares.now.points.now limb) shares.now.k }
    {
        fill_xs(&mut self.xs, shares.points);
        fill_ys(&mut self.ys, shares.points, limb);
        know_elements(&self.xs);
        let k = shares.k;
        if self.near_xs.len() < k || self.near_ys.len() < k {
            return false;
        }
        guess_near_in(
            &mut self.near_xs[..k],
            &mut self.near_ys[..k],
            &mut self.scratch,
            first,
            shares.points,
            limb,
            &self.xs,
            &self.ys,
            out,
        )
    }
}

fn guess_near_in(
    near_xs: &mut [Fe],
    near_ys: &mut [Fe],
    scratch: &mut Scratch,
    first: &Poly,
    points: &[Point],
    limb: usize,
    xs: &[Fe],
    ys: &[Fe],
    out: &mut Poly,
) -> bool
    requires limb { limb < 3 }
    requires near { length near_ys.old ≡ length near_xs.old }
    requires distinct { AreDistinct (xs_of points.now) }
    requires pairs { length xs.now ≡ length ys.now }
    requires threshold { length near_xs.old ≤ length xs.now }
    requires scratch { length xs.now ≤ scratch.old }
    requires room { length near_xs.old ≤ length out.old }
    ensures scratch { scratch.new ≡ scratch.old }
    ensures room { length out.new ≡ length out.old }
    ensures found { IsTrue result → IsDecoded out.new xs.now ys.now (length near_xs.old) }
{
    if !take_near(near_xs, near_ys, first, points, limb) {
        return false;
    }
    decode_through(scratch, near_xs, near_ys, xs, ys, out)
}

// Makes them the first points that lie on the first limb's polynomial, with their y for this limb.
// False where there are too few.
fn take_near(
    near_xs: &mut [Fe],
    near_ys: &mut [Fe],
    first: &Poly,
    points: &[Point],
    limb: usize,
) -> bool
    requires limb { limb < 3 }
    requires near { length near_ys.old ≡ length near_xs.old }
    requires distinct { AreDistinct (xs_of points.now) }
    ensures { IsTrue result → AreDistinct near_xs.new }
{
    let mut taken = 0;
    for i in 0..points.len() {
        let point = points[i];
        if taken < near_xs.len() && first.value_at(point.x).value() == point.y[0].value() {
            near_xs[taken] = point.x;
            near_ys[taken] = point.y[limb];
            taken += 1;
        }
    }
    taken == near_xs.len()
}

// Makes xs the x of the points.
fn fill_xs(xs: &mut Vec<Fe>, points: &[Point])
    requires { length points.now ≤ vec_capacity xs.old }
    ensures items { xs.new.items ≡ xs_of points.now }
    ensures capacity { vec_capacity xs.new ≡ vec_capacity xs.old }
{
    xs.clear();
    for i in 0..points.len() {
        xs.push_reserved(points[i].x);
    }
}

// Makes ys the y of the points for one limb.
fn fill_ys(ys: &mut Vec<Fe>, points: &[Point], limb: usize)
    requires limb { limb < 3 }
    requires capacity { length points.now ≤ vec_capacity ys.old }
    ensures items { ys.new.items ≡ ys_of points.now limb }
    ensures capacity { vec_capacity ys.new ≡ vec_capacity ys.old }
{
    ys.clear();
    for i in 0..points.len() {
        let y = points[i].y;
        ys.push_reserved(y[limb]);
    }
}
