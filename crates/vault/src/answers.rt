// What the calls of a vault answer.
ghost use Rattle.std.specs.Prelude.{◌≡◌, ◌+◌, ◌<◌};
ghost use Rattle.vault.specs.Numbers.{write_number, read_number, inject_number};
ghost use Rattle.vault.specs.declared.answers.WriteFault.TheVariants.{Seal};

use frame::{OpenFault, SealFault, Verdict};

// Why a write is refused.
#[derive(Clone, Copy, PartialEq, Eq, Debug)]
pub enum WriteFault {
    // the cell is not below the count
    Cell,
    // the word has not b blocks
    Size,
    // what sealing refuses
    Seal(SealFault),
}

// Why a read is refused; a refused frame is named by its cell.
#[derive(Clone, Copy, PartialEq, Eq, Debug)]
pub enum ReadFault {
    // the cell is not below the count
    Cell,
    // the receiving row has not b places
    Size,
    // the frame of this cell does not open
    Frame(usize, OpenFault),
}

// Why an injected pattern is refused.
#[derive(Clone, Copy, PartialEq, Eq, Debug)]
pub enum InjectFault {
    // the cell is not below the count
    Cell = 1,
    // the pattern has not the bytes of a cell
    Size = 2,
}

// How many cells a sweep found clean, mended and refused.
#[derive(Clone, Copy, PartialEq, Eq, Debug, Default)]
pub struct Counts {
    pub clean: u32,
    pub mended: u32,
    pub refused: u32,
}

// by hand, since a clause names what `?` makes of a refused seal
impl From<SealFault> for WriteFault {
    ghost from_gives = { λ fault given. given ≡ Seal fault };

    fn from(fault: SealFault) -> WriteFault {
        WriteFault::Seal(fault)
    }
}

impl WriteFault {
    // The number by which the refusal is known; a method, since `u8::from(fault)` says less where it is read.
    pub fn number(self) -> u8
        ensures { result ≡ write_number self }
    {
        // by a match: a variant that holds a fault has no number of its own
        match self {
            WriteFault::Cell => 1,
            WriteFault::Size => 2,
            WriteFault::Seal(fault) => fault.number(),
        }
    }
}

impl ReadFault {
    // The number by which the refusal is known; a method, since `u8::from(fault)` says less where it is read.
    pub fn number(self) -> u8
        ensures { result ≡ read_number self }
    {
        // by a match: a variant that holds a fault has no number of its own
        match self {
            ReadFault::Cell => 1,
            ReadFault::Size => 2,
            ReadFault::Frame(_, fault) => fault.number(),
        }
    }
}

impl InjectFault {
    // The number by which the refusal is known; a method, since `u8::from(fault)` says less where it is read.
    pub fn number(self) -> u8
        ensures { result ≡ inject_number self }
    {
        self as u8
    }
}

impl Counts {
    ghost use Rattle.vault.specs.Tally.{with_one};

    // Counts one cell more, by what it opened to.
    pub(crate) fn add(&mut self, found: Result<Verdict, OpenFault>)
        requires { self.old.clean + self.old.mended + self.old.refused < u32.MAX }
        ensures { self.new ≡ with_one self.old found }
    {
        match found {
            Ok(Verdict::Clean) => self.clean += 1,
            Ok(Verdict::Mended(_)) => self.mended += 1,
            Err(_) => self.refused += 1,
        }
    }
}
