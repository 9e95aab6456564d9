// The sweep: every cell is opened, and a mended frame is sealed anew.
ghost use Rattle.std.specs.Prelude.{◌≡◌, ◌<◌};
ghost use Rattle.vault.specs.Cells.{count};
ghost use Rattle.vault.specs.Calls.{sweep as sweep_call, counted};
ghost use Rattle.vault.specs.Held.{vault_of, Performs, SweepsCell, Keeps};
ghost use Rattle.vault.specs.Tally.{mended_found};

use crate::answers::Counts;
use crate::bytes::LONGEST;
use crate::parts::Vault;
use bank::Bank;
use columns::ColumnSet;
use field::Field;
use frame::{OpenFault, Verdict, renew};

// The most blocks of a word.
const MOST_BLOCKS: usize = 16;

impl<F: Field, C: ColumnSet, B: Bank> Vault<F, C, B> {
    // Sweeps one cell, and answers what it was. A cell that is not mended is not written.
    fn mend(&mut self, cell: usize) -> Result<Verdict, OpenFault>
        requires { cell < count (vault_of F.Field C.ColumnSet self.old) (B.Bank.row self.old.bank) }
        ensures swept { SweepsCell F.Field C.ColumnSet B.Bank self.old cell result self.new }
        ensures kept { Keeps B.Bank self.old self.new }
        ensures still { mended_found result ≡ 0 → self.new ≡ self.old }
    {
        let len = self.len_of(cell).unwrap();
        // memory of a fixed size for the longest frame and for the most blocks
        let mut room = [0; LONGEST];
        let frame = &mut room[..len];
        self.fetch(cell, frame);
        let mut word = [0; MOST_BLOCKS];
        let (verdict, _) = renew::<F, C>(&self.set, frame, &mut word[..self.blocks])?;
        if let Verdict::Mended(_) = verdict {
            self.store(cell, frame);
        }
        Ok(verdict)
    }

    // Goes through the cells in order, seals each mended frame anew, and counts the cells by what they were.
    // A sweep that mends none leaves the vault as it was.
    pub fn sweep(&mut self) -> Counts
        ensures does { Performs F.Field C.ColumnSet B.Bank self.old sweep_call (counted result) self.new }
        ensures kept { Keeps B.Bank self.old self.new }
        ensures still { result.mended ≡ 0 → self.new ≡ self.old }
    {
        let mut counts = Counts::default();
        // a cell is its number
        for cell in 0..self.cell_count() {
            counts.add(self.mend(cell));
        }
        counts
    }
}
