ghost use Rattle.std.specs.Prelude.{◌≡◌, ◌<◌};
ghost use Rattle.field61.specs.declared.TheConstants.{MODULUS};

use super::*;
use field61::Fe;
use star_io::NoMemory;
use std::alloc::Global;

fn element(n: u64) -> Fe
    requires { n < MODULUS }
    ensures { result ≡ n }
{
    Fe::new(n).unwrap_or(Fe::ZERO)
}

fn coefficients(f: &Poly) -> [u64; 5] {
    [0, 1, 2, 3, 4].map(|i| f.coefficient(i).value())
}

#[test]
fn vanishes_at_each_point(rt: HostRuntime) -> Result<(), NoMemory> {
    let alloc = rt.alloc();
    let mut f = Poly::with_room(alloc, 4)?;
    f.vanishing(&[element(1), element(2)]);
    assert_eq!(rt; coefficients(&f), [2, 2305843009213693948, 1, 0, 0]);
    assert_eq!(rt; f.degree(), Some(2));
    assert_eq!(rt; f.divide_linear(element(1)).value(), 0);
    assert_eq!(rt; coefficients(&f), [2305843009213693949, 1, 0, 0, 0]);
    f.vanishing(&[element(3), element(3), element(3)]);
    assert_eq!(rt;
        coefficients(&f),
        [2305843009213693924, 27, 2305843009213693942, 1, 0]
    );
    f.vanishing(&[]);
    assert_eq!(rt; coefficients(&f), [1, 0, 0, 0, 0]);
    Ok(())
}

#[test]
fn passes_through_each_point(rt: HostRuntime) -> Result<(), NoMemory> {
    let alloc = rt.alloc();
    let mut f = Poly::with_room(alloc, 4)?;
    let mut work = Poly::with_room(alloc, 3)?;
    f.interpolate(
        &mut work,
        &[element(1), element(2)],
        &[element(5), element(7)],
    );
    assert_eq!(rt; coefficients(&f), [3, 2, 0, 0, 0]);
    assert_eq!(rt; f.value_at(element(10)).value(), 23);
    f.interpolate(&mut work, &[element(9)], &[element(4)]);
    assert_eq!(rt; coefficients(&f), [4, 0, 0, 0, 0]);
    f.interpolate(&mut work, &[], &[]);
    assert_eq!(rt; f.degree(), None);
    Ok(())
}

#[test]
fn a_polynomial_keeps_its_room(rt: HostRuntime) -> Result<(), NoMemory> {
    let alloc = rt.alloc();
    let mut f = Poly::with_room(alloc, 2)?;
    let mut g = Poly::with_room(alloc, 3)?;
    f.set_coefficient(0, element(6));
    f.times_linear(element(5));
    g.copy_from(&f);
    assert_eq!(rt; coefficients(&g), [2305843009213693921, 6, 0, 0, 0]);
    g.take_off(element(2), 1, &f);
    assert_eq!(rt;
        coefficients(&g),
        [2305843009213693921, 66, 2305843009213693939, 0, 0]
    );
    g.take_off(element(0), 7, &f);
    g.clear();
    assert_eq!(rt; g.degree(), None);
    assert_eq!(rt;
        (f.room(), g.room(), Poly::with_room(alloc, 0)?.room()),
        (2, 3, 0)
    );
    Ok(())
}

// A polynomial of this room whose first places are filled with numbers made from a first one.
fn filled(alloc: Global, room: usize, places: usize, first: Fe) -> Result<Poly, NoMemory> {
    let mut f = Poly::with_room(alloc, room)?;
    let mut number = first;
    for i in 0..places {
        number = number.mul(number).add(element(1234567890123457));
        if i < f.room() {
            f.set_coefficient(i, number);
        }
    }
    Ok(f)
}

// A product by halves is that by columns.
#[test]
fn products_of_many_coefficients(rt: HostRuntime) -> Result<(), NoMemory> {
    let alloc = rt.alloc();
    let f = filled(alloc, 300, 300, element(987654321987654321))?;
    let g = filled(alloc, 300, 280, element(123456789123456789))?;
    let mut by_halves = filled(alloc, 600, 1, element(5))?;
    let mut by_columns = filled(alloc, 600, 1, element(5))?;
    let mut products = ProductRoom::with_room(alloc, 300, 300)?;
    let mut work = vec![in alloc; Fe::ZERO; 300]?;
    assert_eq!(rt; products.add(&mut by_halves, &f, &g), true);
    assert_eq!(rt; by_columns.add_product(&f, &g, &mut work), true);
    for i in 0..600 {
        assert_eq!(rt; by_halves.coefficient(i), by_columns.coefficient(i));
    }
    Ok(())
}
