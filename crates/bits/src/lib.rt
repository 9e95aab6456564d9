// Rows of bytes read and written as binary numbers, and sums over binary digits.
#![tactic(auto)]

ghost use Rattle.std.specs.Prelude.{◌≡◌, ◌+◌, ◌*◌, ◌%◌, ◌^◌, ◌<◌, min, length, bit_or, slice_index};
ghost use Rattle.bits.specs.Rows.{Bytes, little, part};

// The byte at a place, and 0 past the end.
fn byte_at(row: &[u8], i: usize) -> u8
    ensures { result ≡ slice_index row.now i }
{
    row.get(i).copied().unwrap_or(0)
}

// The 32 binary digits from byte `i` on.
fn window(row: &[u8], i: usize) -> u32
    requires { i < 2 ^ 61 }
    ensures { result ≡ part (little row.now) (8 * i) 32 }
{
    if i + 3 < row.len() {
        // one test for all four, which are then one load; by `first_chunk` of what is left it is no plainer
        return u32::from_le_bytes([row[i], row[i + 1], row[i + 2], row[i + 3]]);
    }
    u32::from_le_bytes([
        byte_at(row, i),
        byte_at(row, i + 1),
        byte_at(row, i + 2),
        byte_at(row, i + 3),
    ])
}

// The binary digits of a row from digit `at` on, at most 24 of them; digits past the end are 0.
pub fn get_bits(row: &[u8], at: usize, width: u32) -> u32
    ensures { result ≡ part (little row.now) at (min width 24) }
{
    let count = width.min(24);
    (window(row, at / 8) >> (at % 8)) & ((1 << count) - 1)
}

// Ors bytes into a row from place `first` on; bytes past the end are dropped.
fn or_bytes(row: &mut [u8], first: usize, bytes: &[u8])
    requires known { Bytes row.old }
    requires near { first + length bytes.now < 2 ^ 62 }
    ensures { little row.new ≡ bit_or (little row.old) (little bytes.now * 2 ^ (8 * first)) % 2 ^ (8 * length row.old) }
{
    for (i, byte) in bytes.iter().enumerate() {
        // by the index: of bytes that are written through a `zip` or a `get_mut` no proof knows the values
        if first + i < row.len() {
            row[first + i] |= *byte;
        }
    }
}

// Ors a value into a row from digit `at` on; digits past the end are dropped.
pub fn put_bits(row: &mut [u8], at: usize, value: u32)
    ensures long { length row.new ≡ length row.old }
    ensures ored { little row.new ≡ bit_or (little row.old) (value * 2 ^ at) % 2 ^ (8 * length row.old) }
{
    // a 0 changes nothing
    if value > 0 {
        let shifted = (value as u64) << (at % 8);
        // the bytes above the highest digit are 0, which change nothing
        let length = 8 - shifted.leading_zeros() as usize / 8;
        or_bytes(row, at / 8, &shifted.to_le_bytes()[..length]);
    }
}

#[cfg(test)]
mod tests {
    use super::*;

    #[test]
    fn reads_digits(rt: HostRuntime) {
        let row = [0x34, 0x12, 0xcd, 0xab, 0xef];
        assert_eq!(rt; get_bits(&row, 0, 16), 0x1234);
        assert_eq!(rt; get_bits(&row, 7, 24), 0x579a24);
        assert_eq!(rt; get_bits(&row, 31, 40), 0x1df);
        assert_eq!(rt; get_bits(&row, 40, 5), 0);
    }

    #[test]
    fn writes_digits(rt: HostRuntime) {
        let mut row = [1, 0, 0, 0];
        put_bits(&mut row, 3, 0x1ff);
        assert!(rt; row == [0xf9, 0x0f, 0, 0]);
        put_bits(&mut row, 30, 7);
        assert!(rt; row == [0xf9, 0x0f, 0, 0xc0]);
    }
}
