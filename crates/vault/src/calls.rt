// The calls on one cell: write, read and inject. That a refusal changes nothing is a clause of each call that writes.
// Each call has a room of its own for the bytes of its cell. A cell or a size is refused before any byte of the bank is read, and
// a write reads none.
ghost use Rattle.std.specs.Prelude.{◌≡◌, OnErr};
ghost use Rattle.salt.specs.Token.{salt_number};
ghost use Rattle.vault.specs.Calls.{write as write_call, read as read_call, inject as inject_call, wrote, got, struck};
ghost use Rattle.vault.specs.Held.{Performs, Keeps};

use crate::answers::{InjectFault, ReadFault, WriteFault};
use crate::bytes::{LONGEST, xor_into};
use crate::parts::Vault;
use bank::Bank;
use columns::ColumnSet;
use field::Field;
use frame::{Verdict, open, seal};
use salt::Salt;

impl<F: Field, C: ColumnSet, B: Bank> Vault<F, C, B> {
    // Seals a word and a salt into a cell. A refusal leaves the vault as it was; the salt is used up either way.
    pub fn write(&mut self, cell: usize, word: &[u32], salt: Salt) -> Result<(), WriteFault>
        ensures does { Performs F.Field C.ColumnSet B.Bank self.old (write_call cell word.now (salt_number salt)) (wrote result) self.new }
        ensures kept { Keeps B.Bank self.old self.new }
        ensures refused { OnErr result (self.new ≡ self.old) }
    {
        // by `let .. else`, with no `?`: the salt is a token, and each way out spends it or throws it away by name
        let Some(len) = self.len_of(cell) else {
            salt.discard();
            return Err(WriteFault::Cell);
        };
        if word.len() != self.blocks {
            salt.discard();
            return Err(WriteFault::Size);
        }
        let mut room = [0; LONGEST];
        let frame = &mut room[..len];
        seal::<F, C>(&self.set, word, salt, frame)?;
        self.store(cell, frame);
        Ok(())
    }

    // Opens a cell into a receiving row. A refusal leaves the row as it was.
    pub fn read(&self, cell: usize, places: &mut [u32]) -> Result<Verdict, ReadFault>
        ensures does { Performs F.Field C.ColumnSet B.Bank self.now (read_call cell places.old) (got result places.new) self.now }
    {
        let len = self.len_of(cell).ok_or(ReadFault::Cell)?;
        if places.len() != self.blocks {
            return Err(ReadFault::Size);
        }
        let mut room = [0; LONGEST];
        let frame = &mut room[..len];
        self.fetch(cell, frame);
        let (verdict, _) = open::<F, C>(&self.set, frame, places).map_err(|fault| ReadFault::Frame(
            cell, fault,
        ))?;
        Ok(verdict)
    }

    // Exclusive-ors a pattern onto a cell. A refusal leaves the vault as it was.
    pub fn inject(&mut self, cell: usize, pattern: &[u8]) -> Result<(), InjectFault>
        ensures does { Performs F.Field C.ColumnSet B.Bank self.old (inject_call cell pattern.now) (struck result) self.new }
        ensures kept { Keeps B.Bank self.old self.new }
        ensures refused { OnErr result (self.new ≡ self.old) }
    {
        let len = self.len_of(cell).ok_or(InjectFault::Cell)?;
        if pattern.len() != len {
            return Err(InjectFault::Size);
        }
        let mut room = [0; LONGEST];
        let bytes = &mut room[..len];
        self.fetch(cell, bytes);
        xor_into(bytes, pattern);
        self.store(cell, bytes);
        Ok(())
    }
}
