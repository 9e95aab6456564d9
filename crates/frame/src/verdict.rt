// What sealing and opening a frame answer. Each refusal has a number, by which it is told outside.
ghost use Rattle.std.specs.Prelude.{◌≡◌, Err};
ghost use Rattle.frame.specs.Faults.{fit_number, open_number, seal_number, open_misfit, seal_misfit};

// The part of a frame in which a flipped bit was put right; blocks count from 1, bits from 0.
#[derive(Clone, Copy, PartialEq, Eq, Debug)]
pub enum Part {
    Block(u32, u32),
    Mask(u32),
    Sum(u32),
    Parity,
}

// How a frame opens: as it was sealed, or with one bit put right.
#[derive(Clone, Copy, PartialEq, Eq, Debug)]
pub enum Verdict {
    Clean,
    Mended(Part),
}

// Why a word is not sealed.
#[derive(Clone, Copy, PartialEq, Eq, Debug)]
pub enum SealFault {
    // the field and the column set do not fit each other or the limits
    Unfit = 9,
    // the word has not 1 to 16 blocks, or the frame not the length for that many
    Size = 2,
    // a block is 2^m or more
    Block = 3,
    // the salt is not admitted
    Salt = 4,
}

// Why a frame does not open.
#[derive(Clone, Copy, PartialEq, Eq, Debug)]
pub enum OpenFault {
    // the field and the column set do not fit each other or the limits
    Unfit = 9,
    // the receiving row has not 1 to 16 places, or the frame not the length for that many blocks
    Size = 2,
    // the recovered salt is not admitted
    Salt = 5,
    // the count of ones is even, and the syndrome or the check value is wrong
    Even = 6,
    // the syndrome of an odd frame points at no bit
    Syndrome = 7,
    // no single flip explains an odd frame
    Unmended = 8,
}

// Why there is no frame of so many blocks in a row.
#[derive(Clone, Copy)]
pub(crate) enum Misfit {
    // the field and the column set do not fit each other or the limits
    Unfit,
    // there are not 1 to 16 blocks, or the row has not the length for that many
    Size,
}

// The field and the column set do not fit each other, or break a limit.
#[derive(Clone, Copy, PartialEq, Eq, Debug)]
pub struct Unfit;

impl Unfit {
    // The number by which the refusal is known: written here, since a struct has no numbered variants.
    pub fn number(self) -> u8
        ensures { result ≡ fit_number (Err self) }
    {
        9
    }
}

impl SealFault {
    // The number by which the refusal is known; a method, since `u8::from(fault)` says less where it is read.
    pub fn number(self) -> u8
        ensures { result ≡ seal_number self }
    {
        self as u8
    }
}

impl OpenFault {
    // The number by which the refusal is known; a method, since `u8::from(fault)` says less where it is read.
    pub fn number(self) -> u8
        ensures { result ≡ open_number self }
    {
        self as u8
    }
}

// by hand, and for each of the two, since a clause names what `?` makes; the refusals share no type
impl From<Misfit> for SealFault {
    ghost from_gives = { λ misfit fault. fault ≡ seal_misfit misfit };

    fn from(misfit: Misfit) -> SealFault {
        match misfit {
            Misfit::Unfit => SealFault::Unfit,
            Misfit::Size => SealFault::Size,
        }
    }
}

impl From<Misfit> for OpenFault {
    ghost from_gives = { λ misfit fault. fault ≡ open_misfit misfit };

    fn from(misfit: Misfit) -> OpenFault {
        match misfit {
            Misfit::Unfit => OpenFault::Unfit,
            Misfit::Size => OpenFault::Size,
        }
    }
}
