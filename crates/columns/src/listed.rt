// Sets whose columns are one fixed list, and the interface on them.
ghost use Rattle.std.specs.Prelude.{◌≡◌, ℕ, true, List, length, slice_index};
ghost use Rattle.columns.specs.Tested.{lawful, sound, differ};

use crate::ColumnSet;

// What tells one such set from another: its list, which passes the test of the laws, and how a column of it is found.
pub trait Listed {
    const COUNT: u32;

    const SUM_BITS: u32;

    ghost COUNT: { ℕ };

    ghost SUM_BITS: { ℕ };

    ghost columns: { List ℕ };

    ghost counted: { length columns ≡ COUNT };

    ghost passes: { lawful SUM_BITS columns ≡ true };

    // The column of a bit, and 0 for a bit that has none.
    fn column_of(bit: u32) -> u32
        ensures { result ≡ slice_index columns bit };
}

impl<L: Listed> ColumnSet for L {
    ghost columns = { λ _. L.columns };

    ghost height = { λ _. L.SUM_BITS };

    ghost laws = { λ _.
        let kept = sound L.SUM_BITS L.columns L.passes in
        record {
          small = λ t lt. (kept t lt).0;
          nonzero = λ t lt. (kept t lt).1;
          no_power = λ t k lt. (kept t lt).2 k;
          differ = differ L.SUM_BITS L.columns L.passes;
        } };

    fn count(&self) -> u32 {
        L::COUNT
    }

    fn sum_bits(&self) -> u32 {
        L::SUM_BITS
    }

    fn column(&self, bit: u32) -> u32 {
        L::column_of(bit)
    }
}
