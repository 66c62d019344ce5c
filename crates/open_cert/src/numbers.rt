// The numbers of a key line, as a certificate has them.
ghost use Rattle.std.specs.Prelude.{◌≡◌, ◌<◌, ◌≤◌, ◌^◌, ◌++◌, length, take, IfOk};
ghost use Rattle.field61.specs.Field.{AreElements};
ghost use Rattle.shamir_limbs.specs.KeyLine.{AreDistinct, xs_of};
ghost use Rattle.shamir_limbs.specs.Numbers.{line_numbers};
ghost use Rattle.layer_walk.specs.Lines.{IsLine};

use field61::Fe;
use poly61::Poly;
use shamir_limbs::{KeyLine, Point};
use star_io::NoMemory;
use std::alloc::Global;

/// The k coefficients of each of the three polynomials, from the lowest.
pub(crate) fn numbers_of(
    alloc: Global,
    points: &[Point],
    line: &KeyLine,
    k: usize,
) -> Result<Vec<Fe>, NoMemory>
    requires distinct { AreDistinct (xs_of points.now) }
    requires threshold { k ≤ length points.now }
    requires k { k < 2 ^ 16 }
    requires line { IsLine points.now k line.now }
    ensures { IfOk result (λ numbers. numbers.items ≡ line_numbers points.now k) }
{
    know_elements(points);
    let mut numbers = Vec::with_capacity(alloc, 3 * k)?;
    put_coefficients(&mut numbers, &line.first, k)?;
    put_coefficients(&mut numbers, &line.second, k)?;
    put_coefficients(&mut numbers, &line.third, k)?;
    Ok(numbers)
}

// Puts the first k coefficients last.
fn put_coefficients(numbers: &mut Vec<Fe>, polynomial: &Poly, k: usize) -> Result<(), NoMemory>
    requires { k ≤ length polynomial.now }
    ensures { IfOk result (λ _. numbers.new.items ≡ numbers.old.items ++ take k polynomial.now) }
{
    for i in 0..k {
        numbers.push(polynomial.coefficient(i))?;
    }
    Ok(())
}

// Says that each x is a field element, which its type does.
fn know_elements(points: &[Point])
    ensures { AreElements (xs_of points.now) }
{
    for point in points {
        point.x.know_element();
    }
}
