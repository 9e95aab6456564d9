// The parts of a frame: read from its bytes, and written into them.
ghost use Rattle.std.specs.Prelude.{◌≡◌, ◌+◌, ◌*◌, ◌%◌, ◌^◌, ◌<◌, ◌≤◌, length, count_ones};
ghost use Rattle.bits.specs.Rows.{little};
ghost use Rattle.frame.specs.Code.{code_of, places, mask, sum, check, frame_bits, frame_bytes};
ghost use Rattle.frame.specs.Checks.{all_ones};
ghost use Rattle.frame.specs.Sealing.{stacked, with_parity};

use crate::layout::Layout;
use crate::word::{Word, count_ones};
use bits::{get_bits, put_bits};
use columns::ColumnSet;
use field::Field;

// The parts above the blocks and below the parity bit.
#[derive(Clone, Copy)]
pub(crate) struct Tail {
    pub mask: u32,
    pub sum: u32,
    pub check: u32,
}

impl Tail {
    // The ones of these parts and of the blocks below them.
    pub(crate) fn ones_above(self, blocks: &[u32]) -> u32
        requires { length blocks.now ≤ 16 }
        ensures value { result ≡ all_ones blocks.now + count_ones self.mask + count_ones self.sum + count_ones self.check }
        ensures bound { result ≤ 32 * 19 }
    {
        count_ones(blocks)
            + self.mask.count_ones()
            + self.sum.count_ones()
            + self.check.count_ones()
    }
}

impl<F: Field, C: ColumnSet> Layout<'_, F, C> {
    // Reads the blocks into a row of their number: a row that is lent for writing cannot say it of itself, as a `Word` does.
    fn read_blocks(&self, frame: &[u8], blocks: &mut [u32])
        requires { length blocks.old ≡ self.now.blocks }
        ensures { blocks.new ≡ places F.WIDTH self.now.blocks (little frame.now) }
    {
        let m = self.width();
        for (i, block) in blocks.iter_mut().enumerate() {
            *block = get_bits(frame, i * m as usize, m);
        }
    }

    // Reads all parts: the blocks into their places, the parts above them, and the ones of all, the parity bit too.
    pub(crate) fn read(&self, frame: &[u8], blocks: &mut [u32]) -> (Tail, u32)
        requires { length blocks.old ≡ self.now.blocks }
        ensures blocks { blocks.new ≡ places F.WIDTH self.now.blocks (little frame.now) }
        ensures mask { result.0.mask ≡ mask (code_of F.Field C.ColumnSet self.now.set.now) self.now.blocks (little frame.now) }
        ensures sum { result.0.sum ≡ sum (code_of F.Field C.ColumnSet self.now.set.now) self.now.blocks (little frame.now) }
        ensures check { result.0.check ≡ check (code_of F.Field C.ColumnSet self.now.set.now) self.now.blocks (little frame.now) }
        ensures ones { result.1 ≡ count_ones (little frame.now % 2 ^ frame_bits (code_of F.Field C.ColumnSet self.now.set.now) self.now.blocks) }
    {
        self.read_blocks(frame, blocks);
        let tail = Tail {
            mask: get_bits(frame, self.mask_at(), self.width()),
            sum: get_bits(frame, self.sum_at(), self.sum_bits()),
            check: get_bits(frame, self.check_at(), self.width()),
        };
        let parity = get_bits(frame, self.parity_at(), 1);
        let ones = tail.ones_above(blocks) + parity;
        (tail, ones)
    }
}

impl<F: Field, C: ColumnSet> Word<'_, '_, F, C> {
    // Writes the blocks into a row of zeros.
    fn put_blocks(&self, frame: &mut [u8])
        requires room { self.now.layout.blocks * F.WIDTH ≤ 8 * length frame.old }
        requires empty { little frame.old ≡ 0 }
        ensures { little frame.new ≡ stacked F.WIDTH self.now.blocks.now 0 }
    {
        let m = self.layout.width();
        for (i, y) in self.blocks.iter().enumerate() {
            put_bits(frame, i * m as usize, *y);
        }
    }

    // Writes all parts, with the parity bit that makes the count of ones even.
    pub(crate) fn put_parts(&self, tail: Tail, frame: &mut [u8])
        requires parts { (tail.mask < 2 ^ F.WIDTH) × (tail.sum < 2 ^ C.height self.now.layout.set.now) × (tail.check < 2 ^ F.WIDTH) }
        requires long { length frame.old ≡ frame_bytes (code_of F.Field C.ColumnSet self.now.layout.set.now) self.now.layout.blocks }
        ensures { little frame.new ≡ with_parity ((self.now.layout.blocks + 2) * F.WIDTH + C.height self.now.layout.set.now) (stacked F.WIDTH self.now.blocks.now ((tail.check * 2 ^ C.height self.now.layout.set.now + tail.sum) * 2 ^ F.WIDTH + tail.mask)) }
    {
        frame.fill(0);
        self.put_blocks(frame);
        put_bits(frame, self.layout.mask_at(), tail.mask);
        put_bits(frame, self.layout.sum_at(), tail.sum);
        put_bits(frame, self.layout.check_at(), tail.check);
        put_bits(
            frame,
            self.layout.parity_at(),
            tail.ones_above(self.blocks) % 2,
        );
    }
}
