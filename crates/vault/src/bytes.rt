// Runs of bytes in a bank, reached by its get and put alone.
ghost use Rattle.std.specs.Prelude.{◌≡◌, ◌+◌, ◌≤◌, length, take, drop};
ghost use Rattle.std.proofs.Math.Seq.{paste};
ghost use Rattle.bits.specs.Rows.{xored};

use bank::Bank;

// The bytes of the longest frame: 18 parts of 24 bits, a sum of 8 bits and the parity bit.
pub(crate) const LONGEST: usize = 56;

// The bytes of the bank from `start` on, as many as `bytes` has.
pub(crate) fn fetch<B: Bank>(bank: &B, start: usize, bytes: &mut [u8])
    requires { start + length bytes.old ≤ length (B.Bank.row bank.now) }
    ensures { bytes.new ≡ take (length bytes.old) (drop start (B.Bank.row bank.now)) }
{
    // a bank is no slice: its bytes are had one by one
    for (i, byte) in bytes.iter_mut().enumerate() {
        *byte = bank.get(start + i).unwrap();
    }
}

// Puts `bytes` into the bank from `start` on.
pub(crate) fn store<B: Bank>(bank: &mut B, start: usize, bytes: &[u8])
    requires { start + length bytes.now ≤ length (B.Bank.row bank.old) }
    ensures changed { B.Bank.row bank.new ≡ paste (B.Bank.row bank.old) start bytes.now (length bytes.now) }
    ensures seams { B.seams bank.new ≡ B.seams bank.old }
{
    for (i, byte) in bytes.iter().enumerate() {
        bank.put(start + i, *byte).unwrap();
    }
}

// Exclusive-ors a pattern into bytes of the same number.
pub(crate) fn xor_into(bytes: &mut [u8], pattern: &[u8])
    requires { length bytes.old ≡ length pattern.now }
    ensures { bytes.new ≡ xored bytes.old pattern.now }
{
    // by the index: of bytes that are written through a `zip` no proof knows the values
    for (i, byte) in bytes.iter_mut().enumerate() {
        *byte ^= pattern[i];
    }
}
