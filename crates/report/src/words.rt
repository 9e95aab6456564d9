// What is printed: the answer to a frame, and the refusal of a whole input.
ghost use Rattle.std.specs.Prelude.{Some};
ghost use Rattle.report.specs.Text.{numbers, part_text, answer_text, input_refusal};

use frame::{OpenFault, Part, Verdict};
use std::fmt;

// The blocks of a word, each after a space.
#[derive(Clone, Copy)]
struct Blocks<'a>(&'a [u32]);

impl fmt::Display for Blocks<'_> {
    ghost output = { λ blocks. Some (numbers blocks.0.now) };

    fn fmt<W: fmt::Write>(&self, f: &mut fmt::Formatter<W>) -> fmt::Result {
        for y in self.0 {
            write!(f, " {y}")?;
        }
        Ok(())
    }
}

// Where a bit was put right.
#[derive(Clone, Copy)]
struct Place(Part);

impl fmt::Display for Place {
    ghost output = { λ place. Some (part_text place.0) };

    fn fmt<W: fmt::Write>(&self, f: &mut fmt::Formatter<W>) -> fmt::Result {
        match self.0 {
            Part::Block(j, t) => write!(f, "block {j} bit {t}"),
            Part::Mask(t) => write!(f, "mask bit {t}"),
            Part::Sum(t) => write!(f, "sum bit {t}"),
            Part::Parity => write!(f, "parity"),
        }
    }
}

// What a frame opens to: how, and its word; or why it does not open. A type of ours, since `Display` of a `Result` is not.
#[derive(Clone, Copy)]
pub(crate) enum Answer<'a> {
    Opened(Verdict, &'a [u32]),
    Refused(OpenFault),
}

impl fmt::Display for Answer<'_> {
    ghost output = { λ answer. Some (answer_text answer) };

    fn fmt<W: fmt::Write>(&self, f: &mut fmt::Formatter<W>) -> fmt::Result {
        match *self {
            Answer::Opened(Verdict::Clean, word) => write!(f, "clean{}", Blocks(word)),
            Answer::Opened(Verdict::Mended(part), word) => {
                write!(f, "mended{} at {}", Blocks(word), Place(part))
            }
            Answer::Refused(fault) => write!(f, "refused {}", fault.number()),
        }
    }
}

// Why a whole input is refused.
#[derive(Clone, Copy)]
pub(crate) enum InputFault {
    // it is longer than what is read
    Long,
    // there is no first line, or it names no width and number of blocks
    Heading,
}

impl fmt::Display for InputFault {
    ghost output = { λ fault. Some (input_refusal fault) };

    fn fmt<W: fmt::Write>(&self, f: &mut fmt::Formatter<W>) -> fmt::Result {
        // whole texts: with the number as a value the texts that `report_text` has no longer agree by computing
        f.write_str(match self {
            InputFault::Long => "refused 2",
            InputFault::Heading => "refused 9",
        })
    }
}
