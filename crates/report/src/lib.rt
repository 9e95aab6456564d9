// What the program `stick` prints for what it reads.
#![tactic(auto)]

ghost use Rattle.std.specs.Prelude.{◌≡◌, [], ◌∷◌, ◌++◌, IfOk, string_bytes};
ghost use Rattle.std.specs.Option.{option_map};
ghost use Rattle.frame.specs.Code.{code_of};
ghost use Rattle.report.specs.Text.{blocks_named, frames_text, input_refusal, lines, report_text};

mod first_line;
mod frame_lines;
mod hex;
mod lines;
mod reading;
#[cfg(test)]
mod tests;
mod words;

use crate::first_line::block_count;
use crate::frame_lines::report_frames;
use crate::lines::split_line;
use crate::words::InputFault;
use columns::{ColumnSet, RuleSet, TableSet};
use field::{Field, Gf7, Gf17};
pub use reading::report_from;
use std::alloc::{AllocError, Global};

// The longest input that is read.
const LONGEST: usize = 65_536;

// A line for each frame, if the first line names the width of the field and a number of blocks.
fn report_at<F: Field, C: ColumnSet>(
    heap: Global,
    set: &C,
    heading: &[u8],
    frames: &[u8],
) -> Result<Option<String>, AllocError>
    ensures { IfOk result (λ o. option_map string_bytes o ≡ option_map (λ b. frames_text (code_of F.Field C.ColumnSet set.now) b 1 (lines frames.now)) (blocks_named F.WIDTH heading.now)) }
{
    // by `map` and `transpose` the `?` of the report would hide in a closure
    let Some(b) = block_count(heap, F::WIDTH, heading)? else {
        return Ok(None);
    };
    let report = report_frames::<F, C>(heap, set, b, frames)?;
    Ok(Some(report))
}

// The refusal of a whole input.
fn refuse(heap: Global, fault: InputFault) -> Result<String, AllocError>
    ensures { IfOk result (λ text. string_bytes text ≡ input_refusal fault ++ 10 ∷ []) }
{
    format!(in heap; "{fault}\n")
}

// All that is printed for an input: a line for each frame, or one refusal of the whole.
pub fn report_on(heap: Global, input: &[u8]) -> Result<String, AllocError>
    ensures { IfOk result (λ text. string_bytes text ≡ report_text input.now) }
{
    if input.len() > LONGEST {
        return refuse(heap, InputFault::Long);
    }
    let Some((heading, frames)) = split_line(input) else {
        return refuse(heap, InputFault::Heading);
    };
    if let Some(report) = report_at::<Gf7, TableSet>(heap, &TableSet, heading, frames)? {
        return Ok(report);
    }
    if let Some(report) = report_at::<Gf17, RuleSet>(heap, &RuleSet, heading, frames)? {
        return Ok(report);
    }
    refuse(heap, InputFault::Heading)
}
