// The value of a polynomial at an element of a field, and how many roots a polynomial has.
ghost use Rattle.std.specs.Prelude.{◌≡◌, map};
ghost use Rattle.field.specs.Polynomials.{value_at, Roots};

use crate::Field;

// The value at x of the polynomial with these coefficients, the constant one first.
// Promised of the field with it: a polynomial with as many different roots as coefficients is zero in all of these.
pub fn evaluate<F: Field>(coefficients: &[F::Elem], x: F::Elem) -> F::Elem
    ensures value { F.number result ≡ value_at F.mul (map F.number coefficients.now) (F.number x) }
    ensures roots { Roots F.WIDTH F.mul }
{
    // An element added to itself is 0.
    let zero = F::add(x, x);
    coefficients
        .iter()
        .rev()
        .fold(zero, |sum, c| F::add(*c, F::multiply(x, sum)))
}
