// Banks: rows of bytes of a fixed length, and the interface that every implementation shows.
#![tactic(auto)]

ghost use Rattle.std.specs.Prelude.{◌≡◌, ℕ, ◌≤◌, List, length, OnErr};
ghost use Rattle.bank.specs.Calls.{fault_number, Gives, Puts};
ghost use Rattle.bank.specs.Rows.{Seams, none};

mod joined;
mod lent;
mod owned;
mod row;
#[cfg(test)]
mod tests;

pub use joined::Joined;
pub use lent::Lent;
pub use owned::Owned;

// Why a bank refuses: the place is not below its length.
#[derive(Clone, Copy, PartialEq, Eq, Debug)]
pub enum BankFault {
    Outside = 11,
}

impl BankFault {
    // The number by which the refusal is known; a method, since `u8::from(fault)` says less where it is read.
    pub fn number(self) -> u8
        ensures { result ≡ fault_number self }
    {
        self as u8
    }
}

// A bank means a row of bytes.
pub trait Bank {
    ghost row: { Self → List ℕ };

    ghost short: { (b : Self) → length (row b) ≤ 65536 };

    // where the banks that it is made of meet
    ghost seams: { Self → Seams } = { λ _. none };

    // How many bytes the bank has.
    fn len(&self) -> usize
        ensures { result ≡ length (row self.now) };

    // The byte at a place.
    fn get(&self, place: usize) -> Result<u8, BankFault>
        ensures { Gives (row self.now) place result };

    // Puts a byte at a place. Every other byte stays, and so does every seam; a refusal changes nothing.
    fn put(&mut self, place: usize, byte: u8) -> Result<(), BankFault>
        ensures answer { Puts (row self.old) place byte result (row self.new) }
        ensures kept { seams self.new ≡ seams self.old }
        ensures refused { OnErr result (self.new ≡ self.old) };
}
