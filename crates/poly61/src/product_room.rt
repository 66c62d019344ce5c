// ProductRoom by halves: three products of half the size in place of four (Karatsuba).
ghost use Rattle.std.specs.Prelude.{IsTrue, IfSome};
ghost use Rattle.poly61.specs.Poly.{IsZero};
ghost use Rattle.poly61.specs.Blocks.{AddsProduct, IsSplit, IsJoined};

use crate::poly::Poly;
use field61::Fe;
use star_io::NoMemory;
use std::alloc::Global;

// A factor of at most so many places is multiplied by columns.
const FEW_PLACES: usize = 96;

/// Room for products, with [`ProductRoom::add`].
#[derive(Drop)]
pub struct ProductRoom {
    levels: Vec<Level>,
    reversed: Vec<Fe>,
}

// Room for the halves of both factors, and for their products.
#[derive(Drop)]
struct Level {
    f_low: Poly,
    f_high: Poly,
    g_low: Poly,
    g_high: Poly,
    low: Poly,
    middle: Poly,
    high: Poly,
}

impl ProductRoom {
    /// Room for factors of up to n places. Larger ones are multiplied by columns, if the second
    /// has at most as many places as `columns`.
    pub fn with_room(alloc: Global, n: usize, columns: usize) -> Result<ProductRoom, NoMemory> {
        let mut levels = Vec::new(alloc);
        let mut places = n;
        while places > FEW_PLACES {
            places -= places / 2;
            levels.push(Level::with_room(alloc, places)?)?;
        }
        levels.push(Level::with_room(alloc, 0)?)?;
        let reversed = vec![in alloc; Fe::ZERO; columns]?;
        Ok(ProductRoom { levels, reversed })
    }

    /// Adds the product of f and g, if there is room.
    pub fn add(&mut self, out: &mut Poly, f: &Poly, g: &Poly) -> bool
        ensures { IsTrue result → AddsProduct out.old out.new f.now g.now }
    {
        let reversed = &mut self.reversed;
        let Some((level, rest)) = self.levels.split_first_mut() else {
            return out.add_product(f, g, reversed);
        };
        add_by_halves(out, f, g, level, rest, reversed)
    }
}

impl Level {
    // Room for halves of so many places.
    fn with_room(alloc: Global, places: usize) -> Result<Level, NoMemory> {
        let f_low = Poly::with_room(alloc, places)?;
        let f_high = Poly::with_room(alloc, places)?;
        let g_low = Poly::with_room(alloc, places)?;
        let g_high = Poly::with_room(alloc, places)?;
        let twice = places.checked_mul(2).ok_or(NoMemory)?;
        let low = Poly::with_room(alloc, twice)?;
        let middle = Poly::with_room(alloc, twice)?;
        let high = Poly::with_room(alloc, twice)?;
        Ok(Level {
            f_low,
            f_high,
            g_low,
            g_high,
            low,
            middle,
            high,
        })
    }

    // Whether the halves of these factors fit. A level that is much larger would cost more, since
    // all its room is filled anew for each product.
    fn has_room(&self, f: &Poly, g: &Poly) -> bool {
        half_of(f, g) <= self.f_low.room()
    }
}

// Half of the places of the larger factor, rounded up.
fn half_of(f: &Poly, g: &Poly) -> usize {
    let most = f.places().max(g.places());
    most - most / 2
}

// Makes them the places below `at` and those from there on, if neither part is empty and there is room.
fn split(f: &Poly, at: usize, low: &mut Poly, high: &mut Poly) -> bool
    ensures { IsTrue result → IsSplit f.now low.new high.new at }
{
    let places = f.places();
    if places <= at {
        return false;
    }
    if !low.copy_places(f, 0, at) {
        return false;
    }
    high.copy_places(f, at, places)
}

// Splits both factors at half of their places, and returns where.
fn prepare(f: &Poly, g: &Poly, level: &mut Level) -> Option<usize>
    ensures first { IfSome result (λ half. IsSplit f.now level.new.f_low level.new.f_high half) }
    ensures second { IfSome result (λ half. IsSplit g.now level.new.g_low level.new.g_high half) }
    ensures low { IsZero level.new.low }
    ensures middle { IsZero level.new.middle }
    ensures high { IsZero level.new.high }
{
    level.low.clear();
    level.middle.clear();
    level.high.clear();
    let half = half_of(f, g);
    if !split(f, half, &mut level.f_low, &mut level.f_high) {
        return None;
    }
    if !split(g, half, &mut level.g_low, &mut level.g_high) {
        return None;
    }
    Some(half)
}

// Adds the product of which these are the products of the low halves, of the sums of halves and of
// the high halves.
fn join(out: &mut Poly, low: &Poly, middle: &mut Poly, high: &Poly, half: usize) -> bool
    ensures { IsTrue result → IsJoined out.old out.new low.now middle.old high.now half }
{
    let Some(whole) = half.checked_add(half) else {
        return false;
    };
    if !middle.subtract(low) {
        return false;
    }
    if !middle.subtract(high) {
        return false;
    }
    if !out.add_shifted(0, low) {
        return false;
    }
    if !out.add_shifted(half, middle) {
        return false;
    }
    out.add_shifted(whole, high)
}

// Adds the product of f and g.
fn add_by_halves(
    out: &mut Poly,
    f: &Poly,
    g: &Poly,
    level: &mut Level,
    rest: &mut [Level],
    reversed: &mut [Fe],
) -> bool
    ensures { IsTrue result → AddsProduct out.old out.new f.now g.now }
{
    if f.places() <= FEW_PLACES || g.places() <= FEW_PLACES {
        return out.add_product(f, g, reversed);
    }
    let Some((next, below)) = rest.split_first_mut() else {
        return out.add_product(f, g, reversed);
    };
    if next.has_room(f, g) {
        return add_by_halves(out, f, g, next, below, reversed);
    }
    let Some(half) = prepare(f, g, level) else {
        return out.add_product(f, g, reversed);
    };
    let Some((next, below)) = rest.split_first_mut() else {
        return false;
    };
    if !add_by_halves(
        &mut level.low,
        &level.f_low,
        &level.g_low,
        next,
        below,
        reversed,
    ) {
        return false;
    }
    let Some((next, below)) = rest.split_first_mut() else {
        return false;
    };
    if !add_by_halves(
        &mut level.high,
        &level.f_high,
        &level.g_high,
        next,
        below,
        reversed,
    ) {
        return false;
    }
    if !level.f_low.add_shifted(0, &level.f_high) {
        return false;
    }
    if !level.g_low.add_shifted(0, &level.g_high) {
        return false;
    }
    let Some((next, below)) = rest.split_first_mut() else {
        return false;
    };
    if !add_by_halves(
        &mut level.middle,
        &level.f_low,
        &level.g_low,
        next,
        below,
        reversed,
    ) {
        return false;
    }
    join(out, &level.low, &mut level.middle, &level.high, half)
}
