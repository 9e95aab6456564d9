// The rule set: 17 data bits, 5 bits to a column. Bit t has the number at place t among the numbers from 3 upward that
// are no powers of two.
ghost use Rattle.columns.specs.Rule.{non_powers};
ghost use Rattle.columns.specs.Tested.{rule_counted, rule_passes};

use crate::Listed;

#[derive(Clone, Copy)]
pub struct RuleSet;

impl Listed for RuleSet {
    const COUNT: u32 = 17;

    const SUM_BITS: u32 = 5;

    ghost COUNT = { 17 };

    ghost SUM_BITS = { 5 };

    ghost columns = { non_powers 17 };

    ghost counted = { rule_counted };

    ghost passes = { rule_passes };

    fn column_of(bit: u32) -> u32 {
        if bit < 17 {
            // 4 is passed over from bit 1 on, 8 from bit 4 on, 16 from bit 11 on.
            // By `(3..).filter(..).nth(..)` a column sum takes 150 ns in place of 5.
            bit + 3 + (bit >= 1) as u32 + (bit >= 4) as u32 + (bit >= 11) as u32
        } else {
            0
        }
    }
}
