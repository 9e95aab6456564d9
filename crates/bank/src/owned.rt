// A bank that owns its 512 bytes.
// Its three methods call those of `row.rt`, whose head says why they stand in both.
ghost use Rattle.std.specs.Prelude.{◌≡◌, replicate};
ghost use Rattle.bank.specs.Rows.{bounded, bounded_short};

use crate::{Bank, BankFault, row};

#[derive(Drop)]
pub struct Owned {
    bytes: [u8; 512],
}

impl Owned {
    // A bank of 512 bytes that are 0.
    pub fn new() -> Owned
        ensures { result.bytes ≡ replicate 512 0 }
    {
        Owned { bytes: [0; 512] }
    }

    // The bytes of the bank.
    pub fn into_bytes(self) -> [u8; 512]
        ensures { result ≡ self.bytes }
    {
        self.bytes
    }
}

impl Bank for Owned {
    ghost row = { λ s. bounded s.bytes };

    ghost short = { λ s. bounded_short s.bytes };

    fn len(&self) -> usize {
        row::len(&self.bytes)
    }

    fn get(&self, place: usize) -> Result<u8, BankFault> {
        row::get(&self.bytes, place)
    }

    fn put(&mut self, place: usize, byte: u8) -> Result<(), BankFault> {
        row::put(&mut self.bytes, place, byte)
    }
}
