// What the program reads, and what it prints for that.
ghost use Rattle.std.specs.Prelude.{◌≡◌, ℕ, List, take, IfOk, IfSome, string_bytes};
ghost use Rattle.report.specs.Text.{report_text};

use crate::{LONGEST, report_on};
use std::alloc::Global;
use std::io;
use std::io::Read;

// How many bytes of an input are enough: for them the same is printed as for all of it.
fn enough_bytes() -> u64
    ensures { (input : List ℕ) → report_text (take result input) ≡ report_text input }
{
    LONGEST as u64 + 1
}

// All that is printed for what a reader gives. No more is read than is enough.
pub fn report_from<R: Read + Drop>(heap: Global, reader: R) -> io::Result<String>
    ensures some { IfOk result (λ text. ((input : List ℕ) × (string_bytes text ≡ report_text input))) }

    // Where the bytes that the reader has left are known, it is what is printed for them.
    ensures known { IfOk result (λ text. IfSome (R.remaining reader) (λ input. string_bytes text ≡ report_text input)) }
{
    let mut input = Vec::new(heap);
    reader.take(enough_bytes()).read_to_end(&mut input)?;
    let text = report_on(heap, &input)?;
    Ok(text)
}
