// The field of width 7: polynomials modulo z^7 + z^3 + 1, multiplied by tables of powers and logarithms.
ghost use Rattle.std.specs.Prelude.{◌≡◌, ◌<◌, MatchOption};
ghost use Rattle.field.specs.Fields.{product7, z_power};
ghost use Rattle.field.specs.Widths.{laws7};

use crate::binary::{Binary, Name, Product};
use crate::elem::Elem;
use logarithm_table::LOGARITHMS;
use power_table::POWERS;

// written out, since a module's constant may call no function
mod logarithm_table;
mod power_table;

// The field of 2^7 elements.
pub struct Gf7;

impl Name for Gf7 {
    type Of = Binary<7, ByTables>;
}

// The product by tables.
pub struct ByTables;

impl Product<7> for ByTables {
    ghost mul = { product7 };

    ghost laws = { laws7 };

    // the trait's clause is said again: an impl of a trait with a const argument does not take it
    fn multiply(x: Elem<7>, y: Elem<7>) -> Elem<7>
        ensures { result.value ≡ product7 x.value y.value }
    {
        let (Some(i), Some(j)) = (logarithm(x), logarithm(y)) else {
            return Elem { value: 0 };
        };
        power_of_z(i as usize + j as usize)
    }
}

// The i below 127 with z^i = x; z has the number 2, and 0 is no power of it.
fn logarithm(x: Elem<7>) -> Option<u8>
    ensures { MatchOption result (x.value ≡ 0) (λ i. (i < 127) × (z_power i ≡ x.value)) }
{
    let i = LOGARITHMS[x.value as usize];
    // by `then_some` it is no plainer to prove, which takes the two cases apart
    if i < 127 { Some(i) } else { None }
}

// z^i; the 127th power of z is 1.
fn power_of_z(i: usize) -> Elem<7>
    ensures { result.value ≡ z_power i }
{
    Elem {
        value: POWERS[i % 127] as u32,
    }
}
