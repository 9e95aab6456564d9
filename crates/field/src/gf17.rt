// The field of width 17: polynomials modulo z^17 + z^3 + 1, multiplied by shifting.
ghost use Rattle.std.specs.Prelude.{◌≡◌, ◌^◌, ◌<◌};
ghost use Rattle.field.specs.Fields.{product17};
ghost use Rattle.field.specs.Products.{plain_product, fold};
ghost use Rattle.field.specs.Widths.{laws17};

use crate::binary::{Binary, Name, Product};
use crate::elem::Elem;

// The field of 2^17 elements.
pub struct Gf17;

impl Name for Gf17 {
    type Of = Binary<17, ByShifts>;
}

// The product by shifting.
pub struct ByShifts;

impl Product<17> for ByShifts {
    ghost mul = { product17 };

    ghost laws = { laws17 };

    // the trait's clause is said again: an impl of a trait with a const argument does not take it
    #[tactic(auto, using(crate::proofs::Reduction::reduced17, crate::proofs::Reduction::reduced_lt17))]
    fn multiply(x: Elem<17>, y: Elem<17>) -> Elem<17>
        ensures { result.value ≡ product17 x.value y.value }
    {
        let long = shifted_sum(x.value as u64, y.value as u64);
        // 33 digits fold to 19, and 19 to 17.
        Elem {
            value: folded(folded(long)) as u32,
        }
    }
}

// The product with no reduction: x shifted by i, summed over the set digits i of y.
fn shifted_sum(x: u64, y: u64) -> u64
    requires { (x < 2 ^ 17) × (y < 2 ^ 17) }
    ensures { result ≡ plain_product 17 x y }
{
    // as a fold it is no plainer: the closure would owe the bounds of its product
    let mut sum = 0;
    for i in 0u32..17 {
        // A multiplication by a power of two or by 0 is a shift with no branch.
        sum ^= x * (y & (1 << i));
    }
    sum
}

// z^17 is z^3 + 1, so digits 17 and up move down to 3 and to 0.
fn folded(t: u64) -> u64
    ensures { result ≡ fold 17 3 t }
{
    let high = t >> 17;
    (t & 0x1ffff) ^ (high << 3) ^ high
}
