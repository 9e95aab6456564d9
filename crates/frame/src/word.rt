// A word of elements: the exclusive-or of its blocks, their ones, and its check value.
ghost use Rattle.std.specs.Prelude.{◌≡◌, ◌*◌, ◌^◌, ◌<◌, ◌≤◌, length, ⊤};
ghost use Rattle.frame.specs.Checks.{Below, check_value, xor_all, all_ones};
ghost use Rattle.frame.specs.Sealing.{all_below as are_below};

use crate::layout::Layout;
use columns::ColumnSet;
use field::Field;
use std::alloc::AllocError;

// The element of a block, which is below 2^m.
pub(crate) fn block<F: Field>(y: u32) -> F::Elem
    requires { y < 2 ^ F.WIDTH }
    ensures { F.number result ≡ y }
{
    F::element(y).unwrap()
}

// Whether each block is below 2^m.
pub(crate) fn all_below(blocks: &[u32], m: u32) -> bool
    requires { m ≤ 24 }
    ensures { result ≡ are_below m blocks.now }
{
    blocks.iter().all(|y| *y < 1 << m)
}

// The exclusive-or of all blocks, by a loop over them as the project asks.
pub(crate) fn fold(blocks: &[u32]) -> u32
    ensures { result ≡ xor_all blocks.now }
{
    let mut all = 0;
    for y in blocks {
        all ^= *y;
    }
    all
}

// The ones of all blocks.
pub(crate) fn count_ones(blocks: &[u32]) -> u32
    requires { length blocks.now ≤ 16 }
    ensures value { result ≡ all_ones blocks.now }
    ensures bound { result ≤ 32 * 16 }
{
    blocks.iter().map(|y| y.count_ones()).sum()
}

// The blocks of a frame of this layout, each of them the number of an element.
pub(crate) struct Word<'a, 'b, F: Field, C: ColumnSet> {
    pub layout: Layout<'a, F, C>,
    pub blocks: &'b [u32],
    ghost all: { length blocks.now ≡ layout.blocks },
    ghost elements: { Below F.WIDTH blocks.now },
}

// by hand, so that a word may be let go: a derive would ask it of F and C
impl<F: Field, C: ColumnSet> Copy for Word<'_, '_, F, C> {}

impl<F: Field, C: ColumnSet> Clone for Word<'_, '_, F, C> {
    ghost is_clone = { λ word copy. copy.blocks.now ≡ word.blocks.now };

    ghost is_infallible = { λ _. ⊤ };

    fn clone(&self) -> Result<Self, AllocError> {
        Ok(*self)
    }
}

impl<F: Field, C: ColumnSet> Word<'_, '_, F, C> {
    // The check value, by Horner's rule from the last block to the first.
    pub(crate) fn check_value(&self, a: F::Elem) -> F::Elem
        ensures { F.number result ≡ check_value F.mul self.now.blocks.now (F.number a) }
    {
        let square = F::multiply(a, a);
        let mut total = if self.blocks.len() % 2 == 1 {
            square
        } else {
            F::multiply(a, square)
        };
        for y in self.blocks.iter().rev() {
            total = F::multiply(a, F::add(block::<F>(*y), total));
        }
        total
    }
}
