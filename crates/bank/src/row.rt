// A row of bytes as a bank: what the banks over a slice and over an array of their own have in common. Each of their methods
// calls one of these, so a trait over what they hold would be no shorter.
ghost use Rattle.std.specs.Prelude.{◌≡◌, length, nat_le, OnErr, if◌then◌else◌};
ghost use Rattle.bank.specs.Calls.{Gives, Puts};
ghost use Rattle.bank.specs.Rows.{bounded};

use crate::BankFault;

// The most bytes that a bank has.
const MOST: usize = 65536;

// The length of a bank that would have so many bytes: 0 where they are too many.
pub(crate) fn bounded_len(all: usize) -> usize
    ensures { result ≡ (if nat_le all 65536 then all else 0) }
{
    if all <= MOST { all } else { 0 }
}

// How many bytes the bank over these has.
pub(crate) fn len(bytes: &[u8]) -> usize
    ensures { result ≡ length (bounded bytes.now) }
{
    bounded_len(bytes.len())
}

// The byte at a place.
pub(crate) fn get(bytes: &[u8], place: usize) -> Result<u8, BankFault>
    ensures { Gives (bounded bytes.now) place result }
{
    let shown = &bytes[..len(bytes)];
    shown.get(place).copied().ok_or(BankFault::Outside)
}

// Puts a byte at a place.
pub(crate) fn put(bytes: &mut [u8], place: usize, byte: u8) -> Result<(), BankFault>
    ensures answer { Puts (bounded bytes.old) place byte result (bounded bytes.new) }
    ensures refused { OnErr result (bytes.new ≡ bytes.old) }
{
    // not by `get_mut` on the part that is shown: no proof knows what its refusal leaves of the bytes
    if place >= len(bytes) {
        return Err(BankFault::Outside);
    }
    bytes[place] = byte;
    Ok(())
}
