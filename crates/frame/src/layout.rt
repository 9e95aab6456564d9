// Which fields and column sets fit each other, and how their frames are laid out.
ghost use Rattle.std.specs.Prelude.{◌≡◌, ◌+◌, ◌*◌, ◌≤◌, true, if◌then◌else◌, MatchResult, ⊤};
ghost use Rattle.frame.specs.Code.{code_of, fits, sized, frame_bytes, frame_length, Misses};
ghost use Rattle.frame.specs.Faults.{fit_number};
ghost use Rattle.frame.specs.Promises.{Promises};
ghost use Rattle.frame.specs.Worked.{Worked};

use crate::verdict::{Misfit, Unfit};
use columns::ColumnSet;
use field::Field;
use std::alloc::AllocError;
use std::marker::PhantomData;

// Whether the field and the column set fit each other and keep the limits of a frame.
fn is_fit<F: Field, C: ColumnSet>(set: &C) -> bool
    ensures { result ≡ fits (code_of F.Field C.ColumnSet set.now) }
{
    let m = F::WIDTH;
    let r = set.sum_bits();
    set.count() == m && (3..=24).contains(&m) && (3..=8).contains(&r)
}

// The same, with its refusal. Whoever asks has all that is promised of the frames of a field and a set that fit.
pub fn fit<F: Field, C: ColumnSet>(set: &C) -> Result<(), Unfit>
    ensures answer { fit_number result ≡ (if fits (code_of F.Field C.ColumnSet set.now) then 0 else 9) }
    ensures promises { Promises (code_of F.Field C.ColumnSet set.now) }
{
    if is_fit::<F, C>(set) {
        Ok(())
    } else {
        Err(Unfit)
    }
}

// The layout of the frames of a field, a column set and a number of blocks: the blocks from bit 0 on, then the mask, the
// sum, the check block and the parity bit.
pub(crate) struct Layout<'a, F: Field, C: ColumnSet> {
    pub field: PhantomData<F>,
    pub set: &'a C,
    pub blocks: usize,
    ghost fit: { fits (code_of F.Field C.ColumnSet set.now) ≡ true },
    ghost few: { sized blocks ≡ true },
}

// by hand, so that a layout may be let go: a derive would ask it of F and C
impl<F: Field, C: ColumnSet> Copy for Layout<'_, F, C> {}

impl<F: Field, C: ColumnSet> Clone for Layout<'_, F, C> {
    ghost is_clone = { λ layout copy. (copy.set.now ≡ layout.set.now) × (copy.blocks ≡ layout.blocks) };

    ghost is_infallible = { λ _. ⊤ };

    fn clone(&self) -> Result<Self, AllocError> {
        Ok(*self)
    }
}

impl<'a, F: Field, C: ColumnSet> Layout<'a, F, C> {
    // The layout of frames of so many blocks, if there is one.
    pub(crate) fn new(set: &'a C, blocks: usize) -> Result<Layout<'a, F, C>, Misfit>
        ensures { MatchResult result (λ l. (l.set.now ≡ set.now) × (l.blocks ≡ blocks)) (Misses (code_of F.Field C.ColumnSet set.now) blocks (frame_bytes (code_of F.Field C.ColumnSet set.now) blocks)) }
    {
        if !is_fit::<F, C>(set) {
            return Err(Misfit::Unfit);
        }
        if !(1..=16).contains(&blocks) {
            return Err(Misfit::Size);
        }
        Ok(Layout {
            field: PhantomData,
            set,
            blocks,
        })
    }

    // The same, where a row of so many bytes is one of these frames.
    pub(crate) fn of_row(
        set: &'a C,
        blocks: usize,
        bytes: usize,
    ) -> Result<Layout<'a, F, C>, Misfit>
        ensures { MatchResult result (λ l. (l.set.now ≡ set.now) × (l.blocks ≡ blocks) × (bytes ≡ frame_bytes (code_of F.Field C.ColumnSet set.now) blocks)) (Misses (code_of F.Field C.ColumnSet set.now) blocks bytes) }
    {
        let layout = Layout::new(set, blocks)?;
        if bytes != layout.bytes() {
            return Err(Misfit::Size);
        }
        Ok(layout)
    }

    // m, the bits of a block, of the mask and of the check block
    pub(crate) fn width(&self) -> u32
        ensures value { result ≡ F.WIDTH }
        ensures bound { result ≤ 24 }
    {
        // what the layout keeps is known once it is read
        let _ = &self.set;
        F::WIDTH
    }

    // r, the bits of the sum
    pub(crate) fn sum_bits(&self) -> u32
        ensures value { result ≡ C.height self.now.set.now }
        ensures bound { result ≤ 8 }
    {
        self.set.sum_bits()
    }

    // where the mask begins
    pub(crate) fn mask_at(&self) -> usize
        ensures { result ≡ self.now.blocks * F.WIDTH }
    {
        self.blocks * self.width() as usize
    }

    // where the sum begins
    pub(crate) fn sum_at(&self) -> usize
        ensures { result ≡ (self.now.blocks + 1) * F.WIDTH }
    {
        self.mask_at() + self.width() as usize
    }

    // where the check block begins
    pub(crate) fn check_at(&self) -> usize
        ensures { result ≡ (self.now.blocks + 1) * F.WIDTH + C.height self.now.set.now }
    {
        self.sum_at() + self.sum_bits() as usize
    }

    // where the parity bit is
    pub(crate) fn parity_at(&self) -> usize
        ensures value { result ≡ (self.now.blocks + 2) * F.WIDTH + C.height self.now.set.now }
        ensures bound { result ≤ 18 * 24 + 8 }
    {
        self.check_at() + self.width() as usize
    }

    // The bytes of a frame.
    pub(crate) fn bytes(&self) -> usize
        ensures { result ≡ frame_bytes (code_of F.Field C.ColumnSet self.now.set.now) self.now.blocks }
    {
        (self.parity_at() + 1).div_ceil(8)
    }
}

// The bytes of a frame of b blocks; none where there is no such frame.
pub fn frame_len<F: Field, C: ColumnSet>(set: &C, b: usize) -> Option<usize>
    ensures { result ≡ frame_length (code_of F.Field C.ColumnSet set.now) b }
{
    Layout::<F, C>::new(set, b)
        .ok()
        .map(|layout| layout.bytes())
}

// The definitions of sealing and opening give the frames that were worked out by hand.
pub fn worked_frames()
    ensures { Worked }
{}
