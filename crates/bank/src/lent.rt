// A bank over a slice that is lent for writing. A slice of more than 65,536 bytes is a bank of length 0.
// Its three methods call those of `row.rt`, whose head says why they stand in both.
ghost use Rattle.std.specs.Prelude.{◌≡◌};
ghost use Rattle.bank.specs.Rows.{bounded, bounded_short};

use crate::{Bank, BankFault, row};

#[derive(Drop)]
pub struct Lent<'a> {
    bytes: &'a mut [u8],
}

impl<'a> Lent<'a> {
    // The bank over these bytes, as they are.
    pub fn new(bytes: &'a mut [u8]) -> Lent<'a>
        ensures { result.bytes.now ≡ bytes.old }
    {
        Lent { bytes }
    }

    // The bytes that were lent, as the bank leaves them.
    pub fn into_bytes(self) -> &'a mut [u8]
        ensures { result.now ≡ self.entry.bytes.now }
    {
        self.bytes
    }
}

impl<'a> Bank for Lent<'a> {
    ghost row = { λ s. bounded s.bytes.now };

    ghost short = { λ s. bounded_short s.bytes.now };

    fn len(&self) -> usize {
        row::len(self.bytes)
    }

    fn get(&self, place: usize) -> Result<u8, BankFault> {
        row::get(self.bytes, place)
    }

    fn put(&mut self, place: usize, byte: u8) -> Result<(), BankFault> {
        row::put(self.bytes, place, byte)
    }
}
