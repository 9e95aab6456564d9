// Sealing a word: its frame, written into a row.
ghost use Rattle.std.specs.Prelude.{◌≡◌, true, false, length, MatchOption};
ghost use Rattle.bits.specs.Rows.{little};
ghost use Rattle.salt.specs.Admitted.{admitted};
ghost use Rattle.salt.specs.Token.{salt_number};
ghost use Rattle.frame.specs.Code.{code_of, frame_bytes};
ghost use Rattle.frame.specs.Sealing.{all_below, sealing, row_sealing, seal_answer, sealed_row};

use crate::layout::Layout;
use crate::parts::Tail;
use crate::verdict::SealFault;
use crate::word::{Word, all_below, block, fold};
use columns::{ColumnSet, column_sum};
use field::Field;
use salt::{Salt, admits};

impl<'a, F: Field, C: ColumnSet> Layout<'a, F, C> {
    // These blocks as a word, if each of them is an element.
    fn word<'b>(self, blocks: &'b [u32]) -> Option<Word<'a, 'b, F, C>>
        requires { length blocks.now ≡ self.blocks }
        ensures { MatchOption result (all_below F.WIDTH blocks.now ≡ false) (λ w. (all_below F.WIDTH blocks.now ≡ true) × (w.blocks.now ≡ blocks.now) × (w.layout ≡ self.entry)) }
    {
        if !all_below(blocks, self.width()) {
            return None;
        }
        Some(Word {
            layout: self,
            blocks,
        })
    }
}

impl<F: Field, C: ColumnSet> Word<'_, '_, F, C> {
    // Writes the frame of this word and an admitted salt.
    pub(crate) fn assemble(&self, salt: u32, frame: &mut [u8])
        requires long { length frame.old ≡ frame_bytes (code_of F.Field C.ColumnSet self.now.layout.set.now) self.now.layout.blocks }
        requires salted { admitted F.WIDTH F.mul self.now.layout.blocks salt ≡ true }
        ensures { little frame.new ≡ sealing (code_of F.Field C.ColumnSet self.now.layout.set.now) self.now.blocks.now salt }
    {
        let tail = Tail {
            mask: fold(self.blocks) ^ salt,
            sum: column_sum(self.layout.set, salt),
            check: F::number_of(self.check_value(block::<F>(salt))),
        };
        self.put_parts(tail, frame);
    }
}

// Seals a word and a salt into a frame row. A refusal writes nothing; the salt is used up either way.
pub fn seal<F: Field, C: ColumnSet>(
    set: &C,
    word: &[u32],
    salt: Salt,
    frame: &mut [u8],
) -> Result<(), SealFault>
    ensures answer { result ≡ seal_answer (row_sealing (code_of F.Field C.ColumnSet set.now) word.now (salt_number salt) (length frame.old)) }
    ensures frame { frame.new ≡ sealed_row (row_sealing (code_of F.Field C.ColumnSet set.now) word.now (salt_number salt) (length frame.old)) frame.old }
{
    let number = salt.value();
    salt.discard();
    let layout = Layout::<F, C>::of_row(set, word.len(), frame.len())?;
    let word = layout.word(word).ok_or(SealFault::Block)?;
    if !admits::<F>(number, word.blocks.len()) {
        return Err(SealFault::Salt);
    }
    word.assemble(number, frame);
    Ok(())
}
