// For a run of points the matrix of four polynomials that takes the pair (a, b) of each of them to
// (0, 0).
ghost use Rattle.std.specs.Prelude.{◌⊎◌, ◌≡◌, ℕ, ◌<◌, ◌≤◌, ◌+◌, ◌*◌, ◌^◌, length, slice_index, IsTrue, IfSome};
ghost use Rattle.field61.specs.Field.{field_sum, field_product, field_difference, field_negative, field_power, AreElements};
ghost use Rattle.field61.specs.declared.TheConstants.{MODULUS};
ghost use Rattle.poly61.specs.Blocks.{ArePowers};
ghost use Rattle.poly61.specs.Poly.{value, IsZero, HasDegree};
ghost use Rattle.gao_decoder.specs.Sequence.{IsTied, IsLow, IsStopped};
ghost use Rattle.gao_decoder.specs.Halving.{row_at, TakesTo, IsPivoted, IsSumOfProducts};

use crate::problem::Problem;
use crate::sequence::goes_on;
use field61::{Fe, know_elements, sum_of_two};
use poly61::{Poly, ProductRoom, fill_powers};
use star_io::NoMemory;
use std::alloc::Global;
use std::mem;

// A run of so many points is gone through one point after the other.
const LEAF_POINTS: usize = 32;

/// A row takes a pair (a, b) to v · a + r · b.
#[derive(Drop)]
pub(crate) struct Row {
    pub(crate) v: Poly,
    pub(crate) r: Poly,
}

#[derive(Drop)]
pub(crate) struct Rows {
    pub(crate) a: Row,
    pub(crate) b: Row,
}

#[derive(Drop)]
struct Level {
    first: Rows,
    second: Rows,
}

/// Room for halving: the rows that it finds, those of each level, and the pair of each point.
#[derive(Drop)]
pub(crate) struct Halves {
    pub(crate) rows: Rows,
    levels: Vec<Level>,
    firsts: Vec<Fe>,
    seconds: Vec<Fe>,
    products: ProductRoom,
}

// Twice the orders of the two rows. The lower one is the pivot.
#[derive(Clone, Copy)]
struct Orders {
    a: usize,
    b: usize,
}

impl Row {
    fn with_room(alloc: Global, room: usize) -> Result<Row, NoMemory> {
        let v = Poly::with_room(alloc, room)?;
        let r = Poly::with_room(alloc, room)?;
        Ok(Row { v, r })
    }
}

impl Rows {
    fn with_room(alloc: Global, room: usize) -> Result<Rows, NoMemory> {
        let a = Row::with_room(alloc, room)?;
        let b = Row::with_room(alloc, room)?;
        Ok(Rows { a, b })
    }
}

impl Level {
    fn with_room(alloc: Global, room: usize) -> Result<Level, NoMemory> {
        let first = Rows::with_room(alloc, room)?;
        let second = Rows::with_room(alloc, room)?;
        Ok(Level { first, second })
    }
}

// Multiplies the pivot's row by x - a, and takes the pivot off the other row.
fn pivot_rows(row: &mut Row, other: &mut Row, a: Fe, p: Fe, n: Fe) -> bool
    ensures { IsTrue result →
        IsPivoted row.old.v row.old.r other.old.v other.old.r row.new.v row.new.r other.new.v
        other.new.r a p n }
{
    if !other.v.blend(p, n, &row.v) {
        return false;
    }
    if !other.r.blend(p, n, &row.r) {
        return false;
    }
    if !row.v.times_linear_if_room(a) {
        return false;
    }
    row.r.times_linear_if_room(a)
}

// The same of the pairs of the points from j on.
fn pivot_pairs(xs: &[Fe], pivots: &mut [Fe], others: &mut [Fe], j: usize, to: usize, p: Fe, n: Fe)
    requires point { j < to }
    requires within { to ≤ length xs.now }
    requires pivots { length xs.now ≤ length pivots.old }
    requires others { length xs.now ≤ length others.old }
    ensures pivots { (i : ℕ) → j ≤ i → i < to →
        slice_index pivots.new i
        ≡ field_product (slice_index pivots.old i)
        (field_difference (slice_index xs.now i) (slice_index xs.now j)) }
    ensures others { (i : ℕ) → j ≤ i → i < to →
        slice_index others.new i
        ≡ field_sum (field_product (slice_index others.old i) p)
        (field_product (slice_index pivots.old i) n) }
    ensures pivots_rest { (i : ℕ) → (i < j) ⊎ (to ≤ i) →
        slice_index pivots.new i ≡ slice_index pivots.old i }
    ensures others_rest { (i : ℕ) → (i < j) ⊎ (to ≤ i) →
        slice_index others.new i ≡ slice_index others.old i }
{
    for i in j..to {
        others[i] = sum_of_two(others[i], p, pivots[i], n);
        pivots[i] = pivots[i].mul(xs[i].sub(xs[j]));
    }
}

// Takes the pivot's value at point j off the other row, and multiplies the pivot by x - x_j.
fn pivot(
    xs: &[Fe],
    pivots: &mut [Fe],
    others: &mut [Fe],
    j: usize,
    to: usize,
    row: &mut Row,
    other: &mut Row,
) -> bool
    requires point { j < to }
    requires within { to ≤ length xs.now }
    requires pivots { length xs.now ≤ length pivots.old }
    requires others { length xs.now ≤ length others.old }
    ensures keeps { IsTrue result → (i a b : ℕ) → i < to →
        (i < j → (slice_index pivots.old i ≡ 0) × (slice_index others.old i ≡ 0)) →
        TakesTo row.old.v row.old.r other.old.v other.old.r (slice_index xs.now i) a b
        (slice_index pivots.old i) (slice_index others.old i) →
        TakesTo row.new.v row.new.r other.new.v other.new.r (slice_index xs.now i) a b
        (slice_index pivots.new i) (slice_index others.new i) }
    ensures zero { IsTrue result → (slice_index pivots.new j ≡ 0) × (slice_index others.new j ≡ 0) }
    ensures pivots_rest { (i : ℕ) → (i < j) ⊎ (to ≤ i) →
        slice_index pivots.new i ≡ slice_index pivots.old i }
    ensures others_rest { (i : ℕ) → (i < j) ⊎ (to ≤ i) →
        slice_index others.new i ≡ slice_index others.old i }
{
    let p = pivots[j];
    let n = others[j].neg();
    if !pivot_rows(row, other, xs[j], p, n) {
        return false;
    }
    pivot_pairs(xs, pivots, others, j, to, p, n);
    true
}

// Whether the first row is the pivot.
fn is_first_pivot(first: Fe, second: Fe, orders: Orders) -> bool {
    second.value() == 0 || first.value() != 0 && orders.a < orders.b
}

// Takes the pair of point j to (0, 0).
fn eliminate(
    xs: &[Fe],
    firsts: &mut [Fe],
    seconds: &mut [Fe],
    j: usize,
    to: usize,
    orders: &mut Orders,
    rows: &mut Rows,
) -> bool
    requires point { j < to }
    requires within { to ≤ length xs.now }
    requires firsts { length xs.now ≤ length firsts.old }
    requires seconds { length xs.now ≤ length seconds.old }
    ensures keeps { IsTrue result → (i a b : ℕ) → i < to →
        (i < j → (slice_index firsts.old i ≡ 0) × (slice_index seconds.old i ≡ 0)) →
        TakesTo rows.old.a.v rows.old.a.r rows.old.b.v rows.old.b.r (slice_index xs.now i) a b
        (slice_index firsts.old i) (slice_index seconds.old i) →
        TakesTo rows.new.a.v rows.new.a.r rows.new.b.v rows.new.b.r (slice_index xs.now i) a b
        (slice_index firsts.new i) (slice_index seconds.new i) }
    ensures zero { IsTrue result → (slice_index firsts.new j ≡ 0)
        × (slice_index seconds.new j ≡ 0) }
    ensures firsts_rest { (i : ℕ) → (i < j) ⊎ (to ≤ i) →
        slice_index firsts.new i ≡ slice_index firsts.old i }
    ensures seconds_rest { (i : ℕ) → (i < j) ⊎ (to ≤ i) →
        slice_index seconds.new i ≡ slice_index seconds.old i }
{
    if firsts[j].value() == 0 {
        if seconds[j].value() == 0 {
            return true;
        }
    }
    if is_first_pivot(firsts[j], seconds[j], *orders) {
        orders.a = orders.a.saturating_add(2);
        return pivot(xs, firsts, seconds, j, to, &mut rows.a, &mut rows.b);
    }
    orders.b = orders.b.saturating_add(2);
    pivot(xs, seconds, firsts, j, to, &mut rows.b, &mut rows.a)
}

// Makes the rows (1, 0) and (0, 1).
fn become_unit(rows: &mut Rows) -> bool
    ensures { IsTrue result → (x a b : ℕ) → a < MODULUS → b < MODULUS →
        TakesTo rows.new.a.v rows.new.a.r rows.new.b.v rows.new.b.r x a b a b }
{
    rows.a.r.clear();
    rows.b.v.clear();
    if !rows.a.v.become_one() {
        return false;
    }
    rows.b.r.become_one()
}

// A few points, one after the other.
fn leaf(
    xs: &[Fe],
    firsts: &mut [Fe],
    seconds: &mut [Fe],
    from: usize,
    to: usize,
    orders: &mut Orders,
    rows: &mut Rows,
) -> bool
    requires order { from ≤ to }
    requires within { to ≤ length xs.now }
    requires firsts { length xs.now ≤ length firsts.old }
    requires seconds { length xs.now ≤ length seconds.old }
    ensures done { IsTrue result → (i : ℕ) → from ≤ i → i < to →
        TakesTo rows.new.a.v rows.new.a.r rows.new.b.v rows.new.b.r (slice_index xs.now i)
        (slice_index firsts.old i) (slice_index seconds.old i) 0 0 }
    ensures firsts_rest { (i : ℕ) → to ≤ i → slice_index firsts.new i ≡ slice_index firsts.old i }
    ensures seconds_rest { (i : ℕ) → to ≤ i →
        slice_index seconds.new i ≡ slice_index seconds.old i }
{
    know_elements(firsts);
    know_elements(seconds);
    if !become_unit(rows) {
        return false;
    }
    for j in from..to {
        if !eliminate(xs, firsts, seconds, j, to, orders, rows) {
            return false;
        }
    }
    true
}

fn row_value(row: &Row, powers: &[Fe], top: Fe, x: Fe, a: Fe, b: Fe) -> Fe
    requires many { length powers.now ≡ 32 }
    requires powers { ArePowers powers.now x }
    requires top { top ≡ field_power x 32 }
    ensures { result ≡ row_at row.now.v row.now.r x a b }
{
    sum_of_two(
        row.v.value_by(powers, top, x),
        a,
        row.r.value_by(powers, top, x),
        b,
    )
}

// Takes the pair of each point through the rows.
fn update(rows: &Rows, xs: &[Fe], firsts: &mut [Fe], seconds: &mut [Fe], from: usize, to: usize)
    requires order { from ≤ to }
    requires within { to ≤ length xs.now }
    requires firsts { length xs.now ≤ length firsts.old }
    requires seconds { length xs.now ≤ length seconds.old }
    ensures firsts { (i : ℕ) → from ≤ i → i < to →
        slice_index firsts.new i
        ≡ row_at rows.now.a.v rows.now.a.r (slice_index xs.now i) (slice_index firsts.old i)
        (slice_index seconds.old i) }
    ensures seconds { (i : ℕ) → from ≤ i → i < to →
        slice_index seconds.new i
        ≡ row_at rows.now.b.v rows.now.b.r (slice_index xs.now i) (slice_index firsts.old i)
        (slice_index seconds.old i) }
    ensures firsts_rest { (i : ℕ) → to ≤ i → slice_index firsts.new i ≡ slice_index firsts.old i }
    ensures seconds_rest { (i : ℕ) → to ≤ i →
        slice_index seconds.new i ≡ slice_index seconds.old i }
{
    let mut powers = [Fe::ONE; 32];
    for i in from..to {
        let top = fill_powers(&mut powers, xs[i]);
        let first = firsts[i];
        let second = seconds[i];
        firsts[i] = row_value(&rows.a, &powers, top, xs[i], first, second);
        seconds[i] = row_value(&rows.b, &powers, top, xs[i], first, second);
    }
}

// Makes it f · g + h · l.
fn sum_products(
    out: &mut Poly,
    f: &Poly,
    g: &Poly,
    h: &Poly,
    l: &Poly,
    products: &mut ProductRoom,
) -> bool
    ensures { IsTrue result → IsSumOfProducts out.new f.now g.now h.now l.now }
{
    out.clear();
    if !products.add(out, f, g) {
        return false;
    }
    products.add(out, h, l)
}

// Makes it the row's product with the two rows.
fn row_product(out: &mut Row, row: &Row, rows: &Rows, products: &mut ProductRoom) -> bool
    ensures { IsTrue result → (x a b : ℕ) → row_at out.new.v out.new.r x a b
        ≡ row_at row.now.v row.now.r x (row_at rows.now.a.v rows.now.a.r x a b)
        (row_at rows.now.b.v rows.now.b.r x a b) }
{
    if !sum_products(&mut out.v, &row.v, &rows.a.v, &row.r, &rows.b.v, products) {
        return false;
    }
    sum_products(&mut out.r, &row.v, &rows.a.r, &row.r, &rows.b.r, products)
}

// Finds rows that take the pair of each point of the run to (0, 0).
fn halve(
    xs: &[Fe],
    firsts: &mut [Fe],
    seconds: &mut [Fe],
    from: usize,
    to: usize,
    orders: &mut Orders,
    rows: &mut Rows,
    level: &mut Level,
    rest: &mut [Level],
    products: &mut ProductRoom,
) -> bool
    requires order { from ≤ to }
    requires within { to ≤ length xs.now }
    requires firsts { length xs.now ≤ length firsts.old }
    requires seconds { length xs.now ≤ length seconds.old }
    ensures done { IsTrue result → (i : ℕ) → from ≤ i → i < to →
        TakesTo rows.new.a.v rows.new.a.r rows.new.b.v rows.new.b.r (slice_index xs.now i)
        (slice_index firsts.old i) (slice_index seconds.old i) 0 0 }
    ensures firsts_rest { (i : ℕ) → to ≤ i → slice_index firsts.new i ≡ slice_index firsts.old i }
    ensures seconds_rest { (i : ℕ) → to ≤ i →
        slice_index seconds.new i ≡ slice_index seconds.old i }
{
    if to - from <= LEAF_POINTS {
        return leaf(xs, firsts, seconds, from, to, orders, rows);
    }
    let middle = to - (to - from) / 2;
    let Some((next, below)) = rest.split_first_mut() else {
        return false;
    };
    if !halve(
        xs,
        firsts,
        seconds,
        from,
        middle,
        orders,
        &mut level.first,
        next,
        below,
        products,
    ) {
        return false;
    }
    update(&level.first, xs, firsts, seconds, middle, to);
    let Some((next, below)) = rest.split_first_mut() else {
        return false;
    };
    if !halve(
        xs,
        firsts,
        seconds,
        middle,
        to,
        orders,
        &mut level.second,
        next,
        below,
        products,
    ) {
        return false;
    }
    if !row_product(&mut rows.a, &level.second.a, &level.first, products) {
        return false;
    }
    row_product(&mut rows.b, &level.second.b, &level.first, products)
}

// Makes row a one that takes each (y, -1) to 0: the one of lower order.
fn find_row(
    problem: &Problem,
    firsts: &mut [Fe],
    seconds: &mut [Fe],
    rows: &mut Rows,
    levels: &mut [Level],
    products: &mut ProductRoom,
) -> bool
    ensures { IsTrue result → IsTied rows.new.a.r rows.new.a.v problem.now.xs.now problem.now.ys.now }
{
    let Problem { xs, ys, k } = *problem;
    if firsts.len() < xs.len() {
        return false;
    }
    if seconds.len() < xs.len() {
        return false;
    }
    for i in 0..xs.len() {
        firsts[i] = ys[i];
        seconds[i] = Fe::ONE.neg();
    }
    let mut orders = Orders {
        a: k.saturating_mul(2).saturating_sub(1),
        b: 0,
    };
    let Some((level, rest)) = levels.split_first_mut() else {
        return false;
    };
    if !halve(
        xs,
        firsts,
        seconds,
        0,
        xs.len(),
        &mut orders,
        rows,
        level,
        rest,
        products,
    ) {
        return false;
    }
    if orders.b <= orders.a {
        mem::swap(&mut rows.a, &mut rows.b);
        return true;
    }
    true
}

// The degree of v where the row's degrees are low enough.
fn stops_at(row: &Row, n: usize, k: usize) -> Option<usize>
    requires threshold { k ≤ n }
    requires size { n + k < 2 ^ 63 }
    ensures degree { IfSome result (HasDegree row.now.v) }
    ensures few { IfSome result (λ e. 2 * e + k ≤ n) }
    ensures low { IfSome result (λ _. IsLow row.now.r (n + k)) }
{
    if let Some(_) = goes_on(&row.r, n + k) {
        return None;
    }
    match row.v.degree() {
        Some(degree) => {
            if degree > (n - k) / 2 {
                None
            } else {
                Some(degree)
            }
        }
        None => None,
    }
}

// Room for each halving of n points.
fn levels_for(alloc: Global, n: usize) -> Result<Vec<Level>, NoMemory> {
    let mut levels = Vec::new(alloc);
    let mut points = n;
    while points > LEAF_POINTS {
        points -= points / 2;
        levels.push(Level::with_room(alloc, points + 1)?)?;
    }
    levels.push(Level::with_room(alloc, 0)?)?;
    Ok(levels)
}

impl Halves {
    /// Room for n points.
    pub(crate) fn for_points(alloc: Global, n: usize) -> Result<Halves, NoMemory> {
        let room = n.checked_add(1).ok_or(NoMemory)?;
        let rows = Rows::with_room(alloc, room)?;
        let levels = levels_for(alloc, n)?;
        let firsts = vec![in alloc; Fe::ZERO; n]?;
        let seconds = vec![in alloc; Fe::ZERO; n]?;
        let products = ProductRoom::with_room(alloc, n / 2 + 2, room)?;
        Ok(Halves {
            rows,
            levels,
            firsts,
            seconds,
            products,
        })
    }

    /// Makes row a one that takes each (y, -1) to 0, and answers the degree of its v where its
    /// degrees are low enough.
    pub(crate) fn run(&mut self, problem: &Problem) -> Option<usize>
        ensures { IfSome result (λ e.
            IsStopped problem.now.xs.now problem.now.ys.now self.new.rows.a.r self.new.rows.a.v
            problem.now.k e) }
    {
        if !find_row(
            problem,
            &mut self.firsts,
            &mut self.seconds,
            &mut self.rows,
            &mut self.levels,
            &mut self.products,
        ) {
            return None;
        }
        stops_at(&self.rows.a, problem.xs.len(), problem.k)
    }
}
