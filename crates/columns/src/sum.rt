// The column sum of a number: the exclusive-or of the columns of its set bits.
ghost use Rattle.std.specs.Prelude.{◌≡◌, ℕ, ◌^◌, ◌<◌, bit_xor};
ghost use Rattle.bits.specs.Digits.{pick};

use crate::ColumnSet;

// The column sum of x. Bits past the last column count nothing.
#[tactic(auto, using(crate::proofs::Picks::digit_le, crate::proofs::Picks::sum_more))]
pub fn column_sum<C: ColumnSet>(set: &C, x: u32) -> u32
    ensures value { result ≡ pick (C.columns set.now) x }
    ensures small { result < 2 ^ C.height set.now }
    ensures linear { (y z : ℕ) → pick (C.columns set.now) (bit_xor y z) ≡ bit_xor (pick (C.columns set.now) y) (pick (C.columns set.now) z) }
{
    // As a fold it carries the sum and the rest as a pair, which is no plainer.
    let mut sum = 0;
    let mut rest = x;
    for bit in 0..set.count() {
        sum ^= (rest & 1) * set.column(bit);
        rest >>= 1;
    }
    sum
}
