// The salt token, and the source of noise that salts are drawn from. Only the draw, in the module below, makes a salt.
ghost use Rattle.std.specs.Prelude.{◌≡◌, ◌≤◌, length};
ghost use Rattle.salt.specs.Faults.{fault_number};
ghost use Rattle.salt.specs.Token.{salt_number};

mod draw;

// A salt: a number for one use. It is neither copied nor dropped: a call spends it, or `discard` throws it away.
pub struct Salt {
    value: u32,
}

impl Salt {
    // Its number.
    pub fn value(&self) -> u32
        ensures { result ≡ salt_number self.now }
    {
        self.value
    }

    // Throws the salt away.
    pub fn discard(self) {
        let Salt { value: _ } = self;
    }
}

// Why a draw gives no salt: the field's width, the number of blocks, or no admitted group left.
#[derive(Clone, Copy, PartialEq, Eq, Debug)]
pub enum DrawFault {
    Unfit = 9,
    Blocks = 2,
    NoNoise = 10,
}

impl DrawFault {
    // The number by which the refusal is known; a method, since `u8::from(fault)` says less where it is read.
    pub fn number(self) -> u8
        ensures { result ≡ fault_number self }
    {
        self as u8
    }
}

// Noise bytes, with the place up to which they are used: the project asks for a lent slice and a position.
#[derive(Drop)]
pub struct Noise<'a> {
    bytes: &'a [u8],
    place: usize,
    ghost inside: { place ≤ length bytes.now },
}

impl<'a> Noise<'a> {
    // All the bytes, none of them used yet.
    pub fn new(bytes: &'a [u8]) -> Noise<'a>
        ensures { (result.bytes.now ≡ bytes.now) × (result.place ≡ 0) }
    {
        Noise { bytes, place: 0 }
    }

    // How many bytes are used.
    pub fn place(&self) -> usize
        ensures { result ≡ self.now.place }
    {
        self.place
    }
}
