// A vault and its parts: a field, a column set, a bank, the blocks of a word, and the cells that are asked for.
// What each call leaves alone is one definition, `Keeps`, in place of four facts.
ghost use Rattle.std.specs.Prelude.{◌≡◌, ◌<◌, ◌≤◌, length, IfSome, if◌then◌else◌};
ghost use Rattle.frame.specs.Code.{code_of};
ghost use Rattle.frame.specs.Faults.{fit_number};
ghost use Rattle.vault.specs.Cells.{vault, vault_fits, cell_bytes, cell_length, count, IsCell};
ghost use Rattle.vault.specs.Held.{vault_of, HasLength, PutsCell, Keeps};
ghost use Rattle.vault.specs.Law.{Law};

use crate::bytes::{self, LONGEST};
use bank::Bank;
use columns::ColumnSet;
use field::Field;
use frame::{Unfit, frame_len};
use std::marker::PhantomData;

// The most cells of a vault.
const MOST_CELLS: usize = 1024;

// Cells of frames over any field, column set and bank.
pub struct Vault<F: Field, C: ColumnSet, B: Bank> {
    field: PhantomData<F>,
    pub(crate) set: C,
    pub(crate) bank: B,
    pub(crate) blocks: usize,
    pub(crate) cells: usize,
}

impl<F: Field, C: ColumnSet, B: Bank> Vault<F, C, B> {
    // A vault of these parts; the bank's content stays as it is. Of all that is ever done with it the law holds.
    pub fn new(set: C, bank: B, blocks: usize, cells: usize) -> Self
        ensures parts { (result.set ≡ set) × ((result.bank ≡ bank) × ((result.blocks ≡ blocks) × (result.cells ≡ cells))) }
        ensures law { Law (vault (code_of F.Field C.ColumnSet set) blocks cells) }
    {
        Vault {
            field: PhantomData,
            set,
            bank,
            blocks,
            cells,
        }
    }

    // The column set and the bank, as the vault leaves them.
    pub fn into_parts(self) -> (C, B)
        ensures { (result.0 ≡ self.set) × (result.1 ≡ self.bank) }
    {
        let Vault {
            field: _,
            set,
            bank,
            blocks: _,
            cells: _,
        } = self;
        (set, bank)
    }

    // The bytes of a cell, where the parts fit each other and the bank.
    fn cell_len(&self) -> Option<usize>
        ensures { result ≡ cell_length (vault_of F.Field C.ColumnSet self.now) (length (B.Bank.row self.now.bank)) }
    {
        let bytes = frame_len::<F, C>(&self.set, self.blocks)?;
        let fits = (1..=MOST_CELLS).contains(&self.cells) && self.cells * bytes <= self.bank.len();
        fits.then_some(bytes)
    }

    // Whether the parts fit each other and the bank, and keep their limits.
    pub fn fit(&self) -> Result<(), Unfit>
        ensures { fit_number result ≡ (if vault_fits (vault_of F.Field C.ColumnSet self.now) (length (B.Bank.row self.now.bank)) then 0 else 9) }
    {
        self.cell_len().ok_or(Unfit)?;
        Ok(())
    }

    // How many cells there are: none where the parts do not fit.
    pub(crate) fn cell_count(&self) -> usize
        ensures { result ≡ count (vault_of F.Field C.ColumnSet self.now) (B.Bank.row self.now.bank) }
    {
        self.cell_len().map_or(0, |_| self.cells)
    }

    // How many bytes a cell has, if it is below the count; they go into a room for the longest frame.
    pub(crate) fn len_of(&self, cell: usize) -> Option<usize>
        ensures told { HasLength (vault_of F.Field C.ColumnSet self.now) cell (B.Bank.row self.now.bank) result }
        ensures short { IfSome result (λ len. len ≤ LONGEST) }
    {
        let len = self.cell_len()?;
        (cell < self.cells).then_some(len)
    }

    // The bytes of a cell below the count.
    pub(crate) fn fetch(&self, cell: usize, bytes: &mut [u8])
        requires below { cell < count (vault_of F.Field C.ColumnSet self.now) (B.Bank.row self.now.bank) }
        requires long { length bytes.old ≡ cell_bytes (vault_of F.Field C.ColumnSet self.now) }
        ensures { IsCell (vault_of F.Field C.ColumnSet self.now) cell (B.Bank.row self.now.bank) bytes.new }
    {
        bytes::fetch(&self.bank, cell * bytes.len(), bytes);
    }

    // Puts the bytes of a cell below the count.
    pub(crate) fn store(&mut self, cell: usize, bytes: &[u8])
        requires below { cell < count (vault_of F.Field C.ColumnSet self.old) (B.Bank.row self.old.bank) }
        requires long { length bytes.now ≡ cell_bytes (vault_of F.Field C.ColumnSet self.old) }
        ensures stored { PutsCell F.Field C.ColumnSet B.Bank self.old cell bytes.now self.new }
        ensures kept { Keeps B.Bank self.old self.new }
    {
        bytes::store(&mut self.bank, cell * bytes.len(), bytes);
    }
}
