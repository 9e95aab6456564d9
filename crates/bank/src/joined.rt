// Two banks in a row, as one bank: the second's bytes come after the first's. A pair of more than 65,536 bytes together is a
// bank of length 0.
ghost use Rattle.std.specs.Prelude.{◌≡◌, ◌++◌, length};
ghost use Rattle.bank.specs.Rows.{bounded, bounded_short, seam};
ghost use Rattle.bank.specs.Parts.{Finds};

use crate::row::bounded_len;
use crate::{Bank, BankFault};

#[derive(Drop)]
pub struct Joined<A, B> {
    first: A,
    second: B,
}

// Which of the two banks a place lies in, and the place there: an enum of its own, since its names say which.
#[derive(Clone, Copy)]
enum Part {
    First(usize),
    Second(usize),
}

impl<A: Bank, B: Bank> Joined<A, B> {
    pub fn new(first: A, second: B) -> Joined<A, B>
        ensures { (result.first ≡ first) × (result.second ≡ second) }
    {
        Joined { first, second }
    }

    // The two banks, as the joined bank leaves them.
    pub fn into_parts(self) -> (A, B)
        ensures { (result.0 ≡ self.first) × (result.1 ≡ self.second) }
    {
        (self.first, self.second)
    }

    // The part that a place lies in; the refusal of a place outside.
    fn part(&self, place: usize) -> Result<Part, BankFault>
        ensures { Finds (A.Bank.row self.now.first) (B.Bank.row self.now.second) place result }
    {
        if place >= self.len() {
            return Err(BankFault::Outside);
        }
        let past = place.checked_sub(self.first.len());
        Ok(past.map_or(Part::First(place), Part::Second))
    }
}

impl<A: Bank, B: Bank> Bank for Joined<A, B> {
    ghost row = { λ s. bounded (A.Bank.row s.first ++ B.Bank.row s.second) };

    ghost seams = { λ s. seam (length (A.Bank.row s.first)) (A.Bank.seams s.first) (B.Bank.seams s.second) };

    ghost short = { λ s. bounded_short (A.Bank.row s.first ++ B.Bank.row s.second) };

    fn len(&self) -> usize {
        bounded_len(self.first.len() + self.second.len())
    }

    fn get(&self, place: usize) -> Result<u8, BankFault> {
        match self.part(place)? {
            Part::First(place) => self.first.get(place),
            Part::Second(place) => self.second.get(place),
        }
    }

    fn put(&mut self, place: usize, byte: u8) -> Result<(), BankFault> {
        match self.part(place)? {
            Part::First(place) => self.first.put(place, byte),
            Part::Second(place) => self.second.put(place, byte),
        }
    }
}
