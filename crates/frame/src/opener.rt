// Opening a frame: what its bits say, decided by the rules in their order.
ghost use Rattle.std.specs.Prelude.{◌≡◌, suc, ◌^◌, ◌<◌, length, IfSome, if◌then◌else◌, Ok, Err, bit_xor, nat_eq};
ghost use Rattle.bits.specs.Rows.{little};
ghost use Rattle.field.specs.Powers.{power};
ghost use Rattle.salt.specs.Admitted.{admitted};
ghost use Rattle.frame.specs.Checks.{check_value};
ghost use Rattle.frame.specs.Code.{code_of, places};
ghost use Rattle.frame.specs.Opening.{beside as outside, first, opening_even, bit_hit, beside_hit, opening_odd, opening, row_opening, answer, filled, Names, righted};

use crate::layout::Layout;
use crate::verdict::{OpenFault, Part, Verdict};
use crate::word::{Word, block, fold};
use columns::{ColumnSet, column_sum, find};
use field::Field;
use salt::admits;

// What a frame says beside its blocks: its check block, and the salt and the syndrome that its parts give.
#[derive(Clone, Copy)]
struct Readings {
    check: u32,
    salt: u32,
    syndrome: u32,
}

impl<F: Field, C: ColumnSet> Word<'_, '_, F, C> {
    // How the check value with a salt differs from a check block; a salt that is not admitted is refused.
    fn difference(&self, salt: u32, check: u32) -> Result<u32, OpenFault>
        ensures { result ≡ (if admitted F.WIDTH F.mul (length self.now.blocks.now) salt then Ok (bit_xor (check_value F.mul self.now.blocks.now salt) check) else Err OpenFault.Salt) }
    {
        if !admits::<F>(salt, self.blocks.len()) {
            return Err(OpenFault::Salt);
        }
        let value = self.check_value(block::<F>(salt));
        Ok(F::number_of(value) ^ check)
    }

    // The first block in which a flip of the bit changes the check value by the difference.
    fn fitting_block(&self, salt: u32, bit: u32, difference: u32) -> Option<usize>
        requires small { salt < 2 ^ F.WIDTH }
        requires inside { bit < F.WIDTH }
        ensures within { IfSome result (λ j. j < length self.now.blocks.now) }
        ensures value { result ≡ first (λ j. nat_eq (F.mul (2 ^ bit) (power F.mul salt (suc j))) difference) 0 (length self.now.blocks.now) }
    {
        let a = block::<F>(salt);
        let mut change = block::<F>(1 << bit);
        // as a `find` its closure would change what it captures, of which no proof learns anything
        for j in 0..self.blocks.len() {
            change = F::multiply(a, change);
            if F::number_of(change) == difference {
                return Some(j);
            }
        }
        None
    }

    // A frame with an even count of ones.
    fn even(&self, said: Readings) -> Result<(Verdict, u32), OpenFault>
        ensures { result ≡ answer (opening_even F.WIDTH F.mul self.now.blocks.now said.salt said.check said.syndrome) }
    {
        if said.syndrome != 0 {
            return Err(OpenFault::Even);
        }
        let change = self.difference(said.salt, said.check)?;
        if change != 0 {
            return Err(OpenFault::Even);
        }
        Ok((Verdict::Clean, said.salt))
    }

    // A frame with an odd count of ones whose syndrome is the column of `bit`: that bit of its salt is put right.
    fn bit_hit(&self, said: Readings, bit: u32) -> Result<(Verdict, u32), OpenFault>
        requires { bit < F.WIDTH }
        ensures { result ≡ answer (bit_hit F.WIDTH F.mul self.now.blocks.now (bit_xor said.salt (2 ^ bit)) said.check bit) }
    {
        let salt = said.salt ^ (1 << bit);
        let change = self.difference(salt, said.check)?;
        if change == 0 {
            return Ok((Verdict::Mended(Part::Mask(bit)), salt));
        }
        let j = self
            .fitting_block(salt, bit, change)
            .ok_or(OpenFault::Unmended)?;
        Ok((Verdict::Mended(Part::Block(j as u32 + 1, bit)), salt))
    }

    // A frame with an odd count of ones whose syndrome is no column.
    fn beside_hit(&self, said: Readings, part: Option<Part>) -> Result<(Verdict, u32), OpenFault>
        ensures { result ≡ answer (beside_hit F.WIDTH F.mul self.now.blocks.now said.salt said.check part) }
    {
        let part = part.ok_or(OpenFault::Syndrome)?;
        let change = self.difference(said.salt, said.check)?;
        if change != 0 {
            return Err(OpenFault::Unmended);
        }
        Ok((Verdict::Mended(part), said.salt))
    }

    // A frame with an odd count of ones.
    fn odd(&self, said: Readings) -> Result<(Verdict, u32), OpenFault>
        ensures { result ≡ answer (opening_odd (code_of F.Field C.ColumnSet self.now.layout.set.now) self.now.blocks.now said.salt said.check said.syndrome) }
    {
        match find(self.layout.set, said.syndrome) {
            Some(bit) => self.bit_hit(said, bit),
            None => self.beside_hit(said, self.layout.beside(said.syndrome)),
        }
    }
}

// Flips the bit of the block that a verdict names.
fn put_right(blocks: &mut [u32], verdict: Verdict)
    requires { Names verdict (length blocks.old) }
    ensures { blocks.new ≡ righted verdict blocks.old }
{
    if let Verdict::Mended(Part::Block(j, bit)) = verdict {
        blocks[j as usize - 1] ^= 1 << bit;
    }
}

impl<F: Field, C: ColumnSet> Layout<'_, F, C> {
    // The bit of the sum that a syndrome is, if it is a single bit.
    fn sum_bit(&self, syndrome: u32) -> Option<u32>
        ensures { result ≡ first (λ k. nat_eq (2 ^ k) syndrome) 0 (C.height self.now.set.now) }
    {
        (0..self.sum_bits()).find(|t| 1 << *t == syndrome)
    }

    // The part, beside the word and the mask, whose flip leaves the syndrome.
    fn beside(&self, syndrome: u32) -> Option<Part>
        ensures { result ≡ outside (C.height self.now.set.now) syndrome }
    {
        if syndrome == 0 {
            Some(Part::Parity)
        } else {
            self.sum_bit(syndrome).map(Part::Sum)
        }
    }

    // Reads the blocks of a frame into their places, and decides what the frame opens to. The places are left as they were stored.
    fn judge(&self, frame: &[u8], blocks: &mut [u32]) -> Result<(Verdict, u32), OpenFault>
        requires { length blocks.old ≡ self.now.blocks }
        ensures answer { result ≡ answer (opening (code_of F.Field C.ColumnSet self.now.set.now) self.now.blocks (little frame.now)) }
        ensures stored { blocks.new ≡ places F.WIDTH self.now.blocks (little frame.now) }
    {
        let (tail, ones) = self.read(frame, blocks);
        let salt = fold(blocks) ^ tail.mask;
        let said = Readings {
            check: tail.check,
            salt,
            syndrome: column_sum(self.set, salt) ^ tail.sum,
        };
        let word = Word {
            layout: *self,
            blocks,
        };
        if ones % 2 == 0 {
            word.even(said)
        } else {
            word.odd(said)
        }
    }
}

// Opens a frame into a receiving row of one place for each block. A refusal leaves the row as it was.
// What is answered and what the row holds are two facts, with a clause each, here and wherever a frame is opened.
pub fn open<F: Field, C: ColumnSet>(
    set: &C,
    frame: &[u8],
    row: &mut [u32],
) -> Result<(Verdict, u32), OpenFault>
    ensures answer { result ≡ answer (row_opening (code_of F.Field C.ColumnSet set.now) (length row.old) frame.now) }
    ensures row { row.new ≡ filled (row_opening (code_of F.Field C.ColumnSet set.now) (length row.old) frame.now) row.old }
{
    let layout = Layout::<F, C>::of_row(set, row.len(), frame.len())?;
    // memory of a fixed size for the most blocks, since a refusal is not to touch the row
    let mut room = [0; 16];
    let blocks = &mut room[..row.len()];
    let (verdict, salt) = layout.judge(frame, blocks)?;
    put_right(blocks, verdict);
    row.copy_from_slice(blocks);
    Ok((verdict, salt))
}
