// The one implementation of the interface: elements held as their numbers, with a product that each field brings.
ghost use Rattle.std.specs.Prelude.{◌≡◌, ℕ, ◌%◌, ◌^◌, ◌<◌};
ghost use Rattle.std.proofs.Common.{mod-lt, pow_pos, rules};
ghost use Rattle.field.specs.Laws.{Laws};
ghost use Rattle.field.specs.Elements.{same_value};

use crate::Field;
use crate::elem::Elem;
use std::marker::PhantomData;

// A product on the elements of width W that makes them a field.
pub trait Product<const W: u32> {
    ghost mul: { ℕ → ℕ → ℕ };

    ghost laws: { Laws W mul };

    fn multiply(x: Elem<W>, y: Elem<W>) -> Elem<W>
        ensures { result.value ≡ mul x.entry.value y.entry.value };
}

// The field of 2^W elements with the product P.
pub struct Binary<const W: u32, P>(PhantomData<P>);

// A type that stands for a `Binary`: that one itself, or a plain type with a name of its own, as `Gf7`.
pub trait Name {
    type Of;
}

impl<const W: u32, P> Name for Binary<W, P> {
    type Of = Binary<W, P>;
}

// for each such type and not for `Binary` alone: an alias of that would be a type only, and no value or pattern
impl<const W: u32, P: Product<W>, N: Name<Of = Binary<W, P>>> Field for N {
    type Elem = Elem<W>;

    const WIDTH: u32 = W;

    ghost WIDTH = { W };

    ghost mul = { P.mul };

    ghost laws = { P.laws };

    ghost number = { λ x. x.value };

    ghost numbered = { λ n. record { value = n % 2 ^ W; small = mod-lt n (pow_pos W) } };

    ghost small = { λ x. x.small };

    ghost apart = { same_value W };

    ghost each = { Prim.search rules };

    fn element(n: u32) -> Option<Elem<W>> {
        // not by `then_some`: an element may be made only where its number is known to be small
        if n.checked_shr(W).unwrap_or(0) == 0 {
            Some(Elem { value: n })
        } else {
            None
        }
    }

    fn number_of(x: Elem<W>) -> u32 {
        x.value
    }

    #[tactic(auto, using(std::proofs::lemmas::Nat::xor_lt))]
    fn add(x: Elem<W>, y: Elem<W>) -> Elem<W> {
        Elem {
            value: x.value ^ y.value,
        }
    }

    fn multiply(x: Elem<W>, y: Elem<W>) -> Elem<W> {
        P::multiply(x, y)
    }
}
