// A line for each frame.
ghost use Rattle.std.specs.Prelude.{◌≡◌, ◌≤◌, length, IfOk, string_bytes};
ghost use Rattle.frame.specs.Code.{code_of};
ghost use Rattle.report.specs.Text.{lines, decoded, answer_text, line_outcome, outcome_text, frames_text};

use crate::hex::decode;
use crate::lines::Lines;
use crate::words::Answer;
use columns::ColumnSet;
use field::Field;
use frame::{OpenFault, open};
use std::alloc::{AllocError, Global};

// What a line opens to in a row of one place for each block; one that is not pairs of digits is refused for its length.
fn open_line<'a, F: Field, C: ColumnSet>(
    heap: Global,
    set: &C,
    line: &[u8],
    row: &'a mut [u32],
) -> Result<Answer<'a>, AllocError>
    ensures { IfOk result (λ a. answer_text a ≡ outcome_text (line_outcome (code_of F.Field C.ColumnSet set.now) (length row.old) (decoded line.now))) }
{
    let Some(frame) = decode(heap, line)? else {
        return Ok(Answer::Refused(OpenFault::Size));
    };
    Ok(match open::<F, C>(set, &frame, row) {
        Ok((verdict, _)) => Answer::Opened(verdict, row),
        Err(fault) => Answer::Refused(fault),
    })
}

// A line for each line of the text, numbered from 1.
pub(crate) fn report_frames<F: Field, C: ColumnSet>(
    heap: Global,
    set: &C,
    b: usize,
    frames: &[u8],
) -> Result<String, AllocError>
    requires { b ≤ 16 }
    ensures { IfOk result (λ s. string_bytes s ≡ frames_text (code_of F.Field C.ColumnSet set.now) b 1 (lines frames.now)) }
{
    let mut report = String::new(heap);
    for (i, line) in Lines(frames).enumerate() {
        // a room for the most blocks, as `open` takes a slice of as many places as there are
        let mut room = [0u32; 16];
        let answer = open_line::<F, C>(heap, set, line, &mut room[..b])?;
        writeln!(report, "{} {answer}", i + 1)?;
    }
    Ok(report)
}
