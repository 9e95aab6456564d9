// Fields of 2^m elements: the interface, and the laws that every implementation shows.
#![tactic(auto)]

ghost use Rattle.std.specs.Prelude.{◌≡◌, ℕ, ◌^◌, ◌<◌, ◌≤◌, MatchOption, bit_xor};
ghost use Rattle.field.specs.Laws.{Laws};

mod binary;
mod elem;
mod gf17;
mod gf7;
mod polynomial;
#[cfg(test)]
mod tests;

pub use binary::{Binary, Name, Product};
pub use elem::Elem;
pub use gf7::{ByTables, Gf7};
pub use gf17::{ByShifts, Gf17};
pub use polynomial::evaluate;

// A field of width m, the constant WIDTH: each element has one number below 2^m, and each such number one element.
pub trait Field {
    type Elem: Copy;

    const WIDTH: u32;

    ghost WIDTH: { ℕ };

    // the product, on the numbers of elements; the sum is the exclusive-or
    ghost mul: { ℕ → ℕ → ℕ };

    ghost laws: { Laws WIDTH mul };

    // the number of an element, and the element with a number
    ghost number: { Self.Elem → ℕ };

    ghost numbered: { ℕ → Self.Elem };

    fn degree() -> u32
        ensures { result ≡ WIDTH }
    {
        Self::WIDTH
    }

    // The element with the number n; a number of 2^m or more gives none.
    fn element(n: u32) -> Option<Self::Elem>
        ensures { MatchOption result (2 ^ WIDTH ≤ n) (λ x. number x ≡ n) };

    fn number_of(x: Self::Elem) -> u32
        ensures { result ≡ number x };

    fn add(x: Self::Elem, y: Self::Elem) -> Self::Elem
        ensures { number result ≡ bit_xor (number x) (number y) };

    fn multiply(x: Self::Elem, y: Self::Elem) -> Self::Elem
        ensures { number result ≡ mul (number x) (number y) };

    ghost small: { (x : Self.Elem) → number x < 2 ^ WIDTH };

    ghost apart: { (x y : Self.Elem) → number x ≡ number y → x ≡ y };

    ghost each: { (n : ℕ) → n < 2 ^ WIDTH → number (numbered n) ≡ n };
}
