// Bytes written as pairs of hexadecimal digits.
ghost use Rattle.std.specs.Prelude.{◌≡◌, ◌<◌, IfSome, IfOk, vec_items};
ghost use Rattle.std.specs.Option.{option_map};
ghost use Rattle.report.specs.Text.{digit, byte, decoded};

use std::alloc::{AllocError, Global};

// The value of a digit; an uppercase letter, which `to_digit` takes too, is none.
fn digit_value(x: u8) -> Option<u8>
    ensures value { result ≡ digit x }
    ensures bound { IfSome result (λ d. d < 16) }
{
    match x {
        b'0'..=b'9' => Some(x - b'0'),
        b'a'..=b'f' => Some(x - b'a' + 10),
        _ => None,
    }
}

// The byte of a pair of digits, the high one first.
fn pair_value(high: u8, low: u8) -> Option<u8>
    ensures { result ≡ byte (digit high) (digit low) }
{
    Some(digit_value(high)? * 16 + digit_value(low)?)
}

// The bytes that a line stands for, if it is pairs of digits; the error is want of memory alone.
pub(crate) fn decode(heap: Global, line: &[u8]) -> Result<Option<Vec<u8>>, AllocError>
    ensures { IfOk result (λ o. option_map vec_items o ≡ decoded line.now) }
{
    let (pairs, rest) = line.as_chunks::<2>();
    if !rest.is_empty() {
        return Ok(None);
    }
    // not by `collect` into an `Option`: no proof learns when that is none; with no capacity asked for, since a long line that is
    // refused at its first pairs is to take no memory
    let mut bytes = Vec::new(heap);
    for [high, low] in pairs {
        let Some(byte) = pair_value(*high, *low) else {
            return Ok(None);
        };
        bytes.push(byte)?;
    }
    Ok(Some(bytes))
}
