// Sealing and opening for callers in C and in Rust, at the two kinds of stick.
// The C interface has numbers alone, and a function for each kind of stick.
#![tactic(auto)]

ghost use Rattle.std.specs.Prelude.{◌≡◌, Err, length};
ghost use Rattle.frame.specs.Code.{code_of};
ghost use Rattle.frame.specs.Opening.{row_opening, answer, filled};
ghost use Rattle.frame.specs.Sticks.{code7, code17};
ghost use Rattle.capi.specs.Answers.{accepted, told, Seals};

#[cfg(test)]
mod tests;

use columns::{ColumnSet, RuleSet, TableSet};
use field::{Field, Gf7, Gf17};
use frame::{OpenFault, Part, SealFault, Verdict, open, seal};
use salt::Noise;

// What a sealing answers: 0 or the number of its refusal, and how many noise bytes are used up.
#[repr(C)]
#[derive(Clone, Copy, PartialEq, Eq, Debug)]
pub struct Sealed {
    pub refusal: u8,
    pub used: usize,
}

// What an opening answers: 0 or the number of its refusal, the salt, and the part in which a bit was put right
// (0 none, 1 a block, 2 the mask, 3 the sum, 4 the parity bit) with its block and bit.
#[repr(C)]
#[derive(Clone, Copy, PartialEq, Eq, Debug, Default)]
pub struct Opened {
    pub refusal: u8,
    pub part: u8,
    pub block: u32,
    pub bit: u32,
    pub salt: u32,
}

// A frame that opens.
impl From<(Verdict, u32)> for Opened {
    ghost from_gives = { λ answer opened. opened ≡ accepted answer.0 answer.1 };

    fn from((verdict, salt): (Verdict, u32)) -> Opened {
        let (part, block, bit) = match verdict {
            Verdict::Clean => (0, 0, 0),
            Verdict::Mended(Part::Block(j, t)) => (1, j, t),
            Verdict::Mended(Part::Mask(t)) => (2, 0, t),
            Verdict::Mended(Part::Sum(t)) => (3, 0, t),
            Verdict::Mended(Part::Parity) => (4, 0, 0),
        };
        Opened {
            refusal: 0,
            part,
            block,
            bit,
            salt,
        }
    }
}

// A frame that is refused.
impl From<OpenFault> for Opened {
    ghost from_gives = { λ fault opened. opened ≡ told (Err fault) };

    fn from(fault: OpenFault) -> Opened {
        Opened {
            refusal: fault.number(),
            ..Opened::default()
        }
    }
}

// Draws a salt from the noise and seals the word with it.
fn seal_drawn<F: Field, C: ColumnSet>(
    set: &C,
    word: &[u32],
    noise: &[u8],
    frame: &mut [u8],
) -> Sealed
    ensures { Seals (code_of F.Field C.ColumnSet set.now) word.now noise.now frame.old result frame.new }
{
    let mut source = Noise::new(noise);
    // a match, since no proof learns what `and_then`'s closure would leave in the frame that it captures
    let sealed = match source.draw::<F>(word.len()) {
        Ok(salt) => seal::<F, C>(set, word, salt, frame).map_err(SealFault::number),
        Err(fault) => Err(fault.number()),
    };
    Sealed {
        refusal: sealed.err().unwrap_or(0),
        used: source.place(),
    }
}

// Opens a frame into the word's places, and tells the answer in numbers.
fn open_told<F: Field, C: ColumnSet>(set: &C, frame: &[u8], word: &mut [u32]) -> Opened
    ensures answer { result ≡ told (answer (row_opening (code_of F.Field C.ColumnSet set.now) (length word.old) frame.now)) }
    ensures word { word.new ≡ filled (row_opening (code_of F.Field C.ColumnSet set.now) (length word.old) frame.now) word.old }
{
    open::<F, C>(set, frame, word).map_or_else(Opened::from, Opened::from)
}

// Seals a word of 7-bit blocks, as many as it has, with the first admitted salt of the noise. A refusal leaves the frame as it was.
#[unsafe(no_mangle)]
pub extern "C" fn lekhundra_seal_7(word: &[u32], noise: &[u8], frame: &mut [u8]) -> Sealed
    ensures { Seals code7 word.now noise.now frame.old result frame.new }
{
    seal_drawn::<Gf7, TableSet>(&TableSet, word, noise, frame)
}

// The same with blocks of 17 bits.
#[unsafe(no_mangle)]
pub extern "C" fn lekhundra_seal_17(word: &[u32], noise: &[u8], frame: &mut [u8]) -> Sealed
    ensures { Seals code17 word.now noise.now frame.old result frame.new }
{
    seal_drawn::<Gf17, RuleSet>(&RuleSet, word, noise, frame)
}

// Opens a frame of 7-bit blocks into a word of as many places as it has blocks. A refusal leaves the word as it was.
#[unsafe(no_mangle)]
pub extern "C" fn lekhundra_open_7(frame: &[u8], word: &mut [u32]) -> Opened
    ensures answer { result ≡ told (answer (row_opening code7 (length word.old) frame.now)) }
    ensures word { word.new ≡ filled (row_opening code7 (length word.old) frame.now) word.old }
{
    open_told::<Gf7, TableSet>(&TableSet, frame, word)
}

// The same with blocks of 17 bits.
#[unsafe(no_mangle)]
pub extern "C" fn lekhundra_open_17(frame: &[u8], word: &mut [u32]) -> Opened
    ensures answer { result ≡ told (answer (row_opening code17 (length word.old) frame.now)) }
    ensures word { word.new ≡ filled (row_opening code17 (length word.old) frame.now) word.old }
{
    open_told::<Gf17, RuleSet>(&RuleSet, frame, word)
}
