// The first line: the width and the number of blocks.
ghost use Rattle.std.specs.Prelude.{◌≡◌, ℕ, ◌≤◌, IfSome, IfOk, MatchOption};
ghost use Rattle.report.specs.Text.{Names, blocks_named};

use std::alloc::{AllocError, Global};

// The number, 1 to 16, that is printed so; `parse` would take signs and leading zeros too.
#[tactic(auto, using(crate::proofs::Counting::one_digit, crate::proofs::Counting::one_and_digit, crate::proofs::Counting::shaped))]
fn count(digits: &[u8]) -> Option<usize>
    ensures { MatchOption result ((b : ℕ) → Names digits.now b → ⊥) (Names digits.now) }
{
    match digits {
        [x @ b'1'..=b'9'] => Some(usize::from(*x - b'0')),
        [b'1', x @ b'0'..=b'6'] => Some(usize::from(*x - b'0') + 10),
        _ => None,
    }
}

// The number of blocks, 1 to 16, with which the line names the width; the error is want of memory alone.
pub(crate) fn block_count(
    heap: Global,
    width: u32,
    line: &[u8],
) -> Result<Option<usize>, AllocError>
    ensures value { IfOk result (λ o. o ≡ blocks_named width line.now) }
    ensures bound { IfOk result (λ o. IfSome o (λ b. b ≤ 16)) }
{
    let start = format!(in heap; "{width} ")?;
    Ok(line.strip_prefix(start.as_bytes()).and_then(count))
}
