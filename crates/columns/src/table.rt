// The table set: a column for each of 7 data bits, 4 bits to a column.
ghost use Rattle.std.specs.Prelude.{refl};
ghost use Rattle.columns.specs.Table.{listed};
ghost use Rattle.columns.specs.Tested.{table_passes};

use crate::Listed;

// the set as it is given: these columns follow no rule
const TABLE: [u32; 7] = [12, 6, 14, 9, 5, 13, 3];

#[derive(Clone, Copy)]
pub struct TableSet;

impl Listed for TableSet {
    const COUNT: u32 = 7;

    const SUM_BITS: u32 = 4;

    ghost COUNT = { 7 };

    ghost SUM_BITS = { 4 };

    ghost columns = { listed };

    ghost counted = { refl };

    ghost passes = { table_passes };

    fn column_of(bit: u32) -> u32 {
        TABLE.get(bit as usize).copied().unwrap_or(0)
    }
}
