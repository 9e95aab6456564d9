// Renewing a frame: one that is mended is sealed anew with its word and its salt.
ghost use Rattle.std.specs.Prelude.{◌≡◌, length};
ghost use Rattle.frame.specs.Code.{code_of};
ghost use Rattle.frame.specs.Opening.{row_opening, answer, filled};
ghost use Rattle.frame.specs.Renewal.{renewed};

use crate::layout::Layout;
use crate::opener::open;
use crate::verdict::{OpenFault, Verdict};
use crate::word::Word;
use columns::ColumnSet;
use field::Field;
use std::marker::PhantomData;

// Opens a frame into a receiving row and, where it is mended, puts the sealing of its word and salt in its place.
pub fn renew<F: Field, C: ColumnSet>(
    set: &C,
    frame: &mut [u8],
    row: &mut [u32],
) -> Result<(Verdict, u32), OpenFault>
    ensures answer { result ≡ answer (row_opening (code_of F.Field C.ColumnSet set.now) (length row.old) frame.old) }
    ensures row { row.new ≡ filled (row_opening (code_of F.Field C.ColumnSet set.now) (length row.old) frame.old) row.old }
    ensures frame { frame.new ≡ renewed (code_of F.Field C.ColumnSet set.now) frame.old (row_opening (code_of F.Field C.ColumnSet set.now) (length row.old) frame.old) }
{
    let (verdict, salt) = open::<F, C>(set, frame, row)?;
    if let Verdict::Mended(_) = verdict {
        // a frame that opens has a layout, and its blocks are a word
        let layout = Layout::<F, C> {
            field: PhantomData,
            set,
            blocks: row.len(),
        };
        let word = Word {
            layout,
            blocks: row,
        };
        word.assemble(salt, frame);
    }
    Ok((verdict, salt))
}
